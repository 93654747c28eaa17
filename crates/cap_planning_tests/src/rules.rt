// The rules in print.
use cap_names::RuleNo;
use cap_ops::operations::{COMPOSE, KERNEL};
use cap_rules::{costs, rules};
use cap_terms::{Rule, Step, Var, check_term, multiplicity};
use std::alloc::{AllocError, Global};
use std::test::Fail;

static OPERATIONS: [&str; 44] = [
    "Identity",
    "Compose",
    "Zero",
    "Add",
    "Negate",
    "Subtract",
    "Scale",
    "IsCongruent",
    "IsZero",
    "ZeroObject",
    "DirectSum",
    "Product",
    "Coproduct",
    "Pair",
    "Copair",
    "Kernel",
    "KernelLift",
    "Cokernel",
    "CokernelColift",
    "WeakKernel",
    "WeakCokernel",
    "Lift",
    "Colift",
    "IsMono",
    "IsEpi",
    "IsIso",
    "IsSplitMono",
    "IsSplitEpi",
    "Inverse",
    "Section",
    "Retraction",
    "Equalizer",
    "Coequalizer",
    "Pullback",
    "Pushout",
    "Image",
    "Coimage",
    "KernelMap",
    "CokernelMap",
    "Intersection",
    "Union",
    "IsSubobject",
    "Homology",
    "IsExact",
];

static PARAMETERS: [&str; 4] = ["a", "b", "c", "d"];

// The parameters are a, b, ..; what is used more than once has a name; A marks the rules of abelian categories.
static PRINTED: [&str; 59] = [
    "1 Negate(a): Scale(-1, a)",
    "2 Subtract(a, b): Add(a, Negate(b))",
    "3 Add(a, b): Subtract(a, Negate(b))",
    "4 Negate(a): Subtract(Zero(src a, tgt a), a)",
    "5 Zero(a, b): v1 = DirectSum(a, b); Compose(v1.1, v1.4)",
    "6 IsZero(a): IsCongruent(a, Zero(src a, tgt a))",
    "7 IsCongruent(a, b): IsZero(Subtract(a, b))",
    "8 Identity(a): v1 = DirectSum(a, a); Compose(v1.1, v1.3)",
    "9 Product(a, b): v1 = DirectSum(a, b); (v1.3, v1.4)",
    "10 Coproduct(a, b): v1 = DirectSum(a, b); (v1.1, v1.2)",
    "11 DirectSum(a, b): v1 = Product(a, b); (Pair(v1.1, v1.2, Identity(a), Zero(a, b)), Pair(v1.1, v1.2, Zero(b, a), Identity(b)), v1.1, v1.2)",
    "12 DirectSum(a, b): v1 = Coproduct(a, b); (v1.1, v1.2, Copair(v1.1, v1.2, Identity(a), Zero(b, a)), Copair(v1.1, v1.2, Zero(a, b), Identity(b)))",
    "13 Pair(a, b, c, d): v1 = DirectSum(tgt a, tgt b); Lift(Add(Compose(c, v1.1), Compose(d, v1.2)), Add(Compose(a, v1.1), Compose(b, v1.2)))",
    "14 Copair(a, b, c, d): v1 = DirectSum(src a, src b); Colift(Add(Compose(v1.3, a), Compose(v1.4, b)), Add(Compose(v1.3, c), Compose(v1.4, d)))",
    "15 Lift(a, b): Pair(b, b, a, a)",
    "16 Colift(a, b): Copair(a, a, b, b)",
    "17 Kernel(a): Equalizer(a, Zero(src a, tgt a))",
    "18 Cokernel(a): Coequalizer(a, Zero(src a, tgt a))",
    "19 Equalizer(a, b): Kernel(Subtract(a, b))",
    "20 Coequalizer(a, b): Cokernel(Subtract(a, b))",
    "21 Pullback(a, b): v1 = DirectSum(src a, src b); v2 = Kernel(Subtract(Compose(v1.3, a), Compose(v1.4, b))); (Compose(v2, v1.3), Compose(v2, v1.4))",
    "22 Pushout(a, b): v1 = DirectSum(tgt a, tgt b); v2 = Cokernel(Subtract(Compose(a, v1.1), Compose(b, v1.2))); (Compose(v1.1, v2), Compose(v1.2, v2))",
    "23 Pullback(a, b): v1 = Product(src a, src b); v2 = Equalizer(Compose(v1.1, a), Compose(v1.2, b)); (Compose(v2, v1.1), Compose(v2, v1.2))",
    "24 Pushout(a, b): v1 = Coproduct(tgt a, tgt b); v2 = Coequalizer(Compose(a, v1.1), Compose(b, v1.2)); (Compose(v1.1, v2), Compose(v1.2, v2))",
    "25 Kernel(a): Pullback(a, Zero(src ZeroObject(), tgt a)).1",
    "26 Cokernel(a): Pushout(a, Zero(src a, src ZeroObject())).1",
    "27 WeakKernel(a): Kernel(a)",
    "28 WeakCokernel(a): Cokernel(a)",
    "29 KernelLift(a, b): Lift(b, a)",
    "30 CokernelColift(a, b): Colift(a, b)",
    "31 IsMono(a): IsZero(Kernel(a))",
    "32 IsEpi(a): IsZero(Cokernel(a))",
    "33 IsMono(a): v1 = Pullback(a, a); IsCongruent(v1.1, v1.2)",
    "34 IsEpi(a): v1 = Pushout(a, a); IsCongruent(v1.1, v1.2)",
    "35 IsMono(a): IsZero(WeakKernel(a))",
    "36 IsEpi(a): IsZero(WeakCokernel(a))",
    "37 IsIso(a): exists Inverse(a)",
    "38 A IsIso(a): both IsMono(a) IsEpi(a)",
    "39 IsIso(a): both IsSplitMono(a) IsSplitEpi(a)",
    "40 IsSplitMono(a): exists Retraction(a)",
    "41 IsSplitEpi(a): exists Section(a)",
    "42 Section(a): Lift(Identity(tgt a), a)",
    "43 Retraction(a): Colift(a, Identity(src a))",
    "44 Inverse(a): v1 = Section(a); when IsCongruent(Compose(a, v1), Identity(src a)) v1",
    "45 Inverse(a): v1 = Retraction(a); when IsCongruent(Compose(v1, a), Identity(tgt a)) v1",
    "46 A Image(a): v1 = Kernel(Cokernel(a)); (KernelLift(v1, a), v1)",
    "47 A Coimage(a): v1 = Cokernel(Kernel(a)); (v1, CokernelColift(v1, a))",
    "48 A Image(a): Coimage(a)",
    "49 A Coimage(a): Image(a)",
    "50 KernelMap(a, b, c): KernelLift(c, Compose(a, b))",
    "51 CokernelMap(a, b, c): CokernelColift(a, Compose(b, c))",
    "52 Intersection(a, b): Compose(Pullback(a, b).1, a)",
    "53 Union(a, b): v1 = Coproduct(src a, src b); Image(Copair(v1.1, v1.2, a, b)).2",
    "54 IsSubobject(a, b): exists Lift(a, b)",
    "55 Homology(a, b): v1 = Kernel(b); (v1, Cokernel(KernelLift(v1, a)))",
    "56 IsExact(a, b): both IsZero(Compose(a, b)) IsZero(Compose(Kernel(b), Cokernel(a)))",
    "57 IsExact(a, b): both IsZero(Compose(a, b)) IsZero(Compose(WeakKernel(b), WeakCokernel(a)))",
    "58 Equalizer(a, b): v1 = DirectSum(src a, tgt a); Pullback(Add(v1.1, Compose(a, v1.2)), Add(v1.1, Compose(b, v1.2))).1",
    "59 Coequalizer(a, b): v1 = DirectSum(src a, tgt a); Pushout(Add(v1.4, Compose(v1.3, a)), Add(v1.4, Compose(v1.3, b))).1",
];

fn operation(number: u8) -> &'static str {
    if 1 <= number && number <= 44 {
        OPERATIONS[usize::from(number) - 1]
    } else {
        "?"
    }
}

fn text_at(texts: &[String], x: Var) -> &str {
    match texts.get(usize::from(x.0)) {
        Some(text) => text.as_str(),
        None => "?",
    }
}

fn push_list(out: &mut String, texts: &[String], args: &[Var]) -> Result<(), AllocError> {
    out.push_str("(")?;
    for (i, x) in args.iter().enumerate() {
        if i > 0 {
            out.push_str(", ")?;
        }
        out.push_str(text_at(texts, *x))?;
    }
    out.push_str(")")
}

fn push_words(out: &mut String, words: [&str; 4]) -> Result<(), AllocError> {
    for word in words {
        out.push_str(word)?;
    }
    Ok(())
}

fn step_text(alloc: Global, texts: &[String], step: &Step) -> Result<String, AllocError> {
    let mut out = String::new(alloc);
    match step {
        Step::Call { op, args } => {
            out.push_str(operation(op.0))?;
            push_list(&mut out, texts, args.as_slice())?;
        }
        Step::Src(x) => push_words(&mut out, ["src ", text_at(texts, *x), "", ""])?,
        Step::Tgt(x) => push_words(&mut out, ["tgt ", text_at(texts, *x), "", ""])?,
        Step::Part { of, n } => {
            let number = n.to_string(alloc)?;
            push_words(&mut out, [text_at(texts, *of), ".", number.as_str(), ""])?;
        }
        Step::MinusOne => out.push_str("-1")?,
        Step::Exists(x) => push_words(&mut out, ["exists ", text_at(texts, *x), "", ""])?,
        Step::Both(x, y) => push_words(
            &mut out,
            ["both ", text_at(texts, *x), " ", text_at(texts, *y)],
        )?,
        Step::When(x, y) => push_words(
            &mut out,
            ["when ", text_at(texts, *x), " ", text_at(texts, *y)],
        )?,
        Step::Tuple(args) => push_list(&mut out, texts, args.as_slice())?,
    }
    Ok(out)
}

fn use_all(uses: &mut [u8; 256], args: &[Var]) {
    for x in args {
        let place = usize::from(x.0);
        uses[place] = uses[place].saturating_add(1);
    }
}

fn use_variables(uses: &mut [u8; 256], step: &Step) {
    match step {
        Step::Call { args, .. } | Step::Tuple(args) => use_all(uses, args.as_slice()),
        Step::Src(x) | Step::Tgt(x) | Step::Part { of: x, .. } | Step::Exists(x) => use_all(
            uses,
            &[*x],
        ),
        Step::Both(x, y) | Step::When(x, y) => use_all(uses, &[*x, *y]),
        Step::MinusOne => {}
    }
}

fn head_text(alloc: Global, rule: &Rule) -> Result<String, AllocError> {
    let mut out = rule.cost.no.0.to_string(alloc)?;
    out.push_str(if rule.cost.abelian { " A " } else { " " })?;
    out.push_str(operation(rule.cost.head.0))?;
    let mut parameters = Vec::new(alloc);
    let mut texts = Vec::new(alloc);
    for i in 0..rule.body.params {
        parameters.push(Var(i))?;
        texts.push(String::from_str(alloc, parameter(i))?)?;
    }
    push_list(&mut out, &texts, &parameters)?;
    out.push_str(": ")?;
    Ok(out)
}

fn parameter(i: u8) -> &'static str {
    if i < 4 {
        PARAMETERS[usize::from(i)]
    } else {
        "?"
    }
}

fn printed(alloc: Global, rule: &Rule) -> Result<String, AllocError> {
    let mut uses = [0u8; 256];
    for step in rule.body.steps.as_slice() {
        use_variables(&mut uses, step);
    }
    let mut out = head_text(alloc, rule)?;
    let mut texts = Vec::new(alloc);
    for i in 0..rule.body.params {
        texts.push(String::from_str(alloc, parameter(i))?)?;
    }
    let mut names = 0u8;
    for step in rule.body.steps.as_slice() {
        let text = step_text(alloc, &texts, step)?;
        if texts.len() < 256 && uses[texts.len()] > 1 {
            names = names.saturating_add(1);
            let mut name = String::from_str(alloc, "v")?;
            let number = names.to_string(alloc)?;
            name.push_str(number.as_str())?;
            push_words(&mut out, [name.as_str(), " = ", text.as_str(), "; "])?;
            texts.push(name)?;
        } else {
            texts.push(text)?;
        }
    }
    out.push_str(text_at(&texts, rule.body.answer))?;
    Ok(out)
}

#[test]
fn the_rules_are_those_of_the_table(rt: HostRuntime) -> Result<(), Fail> {
    let set = rules(rt.alloc())?;
    let costs = costs();
    for (i, line) in PRINTED.iter().enumerate() {
        let rule = set.rule(RuleNo(i as u8 + 1));
        let text = printed(rt.alloc(), rule)?;
        assert_eq!(rt; text.as_str(), *line);
        assert_eq!(rt; rule.cost, costs[i]);
        assert!(rt; rule.body.steps.len() < 100);
        assert_eq!(rt; check_term(rule.cost.head, &rule.body), Ok(()));
    }
    Ok(())
}

#[test]
fn a_pullback_by_a_kernel_composes_four_times(rt: HostRuntime) -> Result<(), Fail> {
    let set = rules(rt.alloc())?;
    let rule = set.rule(RuleNo(21));
    assert!(rt; rule.body.steps.len() < 100);
    assert_eq!(rt; multiplicity(&rule.body, COMPOSE), 4);
    assert_eq!(rt; multiplicity(&rule.body, KERNEL), 1);
    Ok(())
}
