// Laws of typed bodies. They run nothing.
ghost use Rattle.std.specs.Prelude.{ℕ};
ghost use Rattle.cap_ops.specs.Values.{Setting};
ghost use Rattle.cap_terms.specs.declared.body.Body.{Body};
ghost use Rattle.cap_terms.specs.Ends.{NeverMismatches};

/// A typed body that is run on arguments that fit its head never meets a mismatch of ends, whatever answers its calls
/// give within their signatures; its answer has the head's ends.
pub fn law_typed_bodies_fit<O, M>()
    ensures { (S : Setting O M) (head : ℕ) (body : Body) → NeverMismatches S head body }
{}
