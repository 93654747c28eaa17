// The example scripts over matrices, each with what `plain` writes for it.

/// A script, and its text.
pub type Example = (&'static str, &'static str);

// Two objects of one dimension are two objects.
pub const ENDS_THAT_DO_NOT_MEET: Example = (
    "\
category V vec 5
register V Compose
register V Add
finalise V
object V a = 2
object V b = 2
let f = V a -> b [1 2; 3 4]
let g = V a -> b [1 0; 0 1]
let h = V Compose f g
let s = V Add f g
object V a2 = 2
let q = V a2 -> b [1 0; 0 1]
let t = V Add f q
let bad = V a -> b [1 2]
",
    "\
V: vec 5
V registers Compose 1
V registers Add 1
V final
V#1: 2
a = V#1
V#2: 2
b = V#2
f = V#1 -> V#2 [1 2; 3 4]
g = V#1 -> V#2 [1 0; 0 1]
h ! Mismatch 3 V#2 V#1
s = V#1 -> V#2 [2 2; 3 0]
V#3: 2
a2 = V#3
q = V#3 -> V#2 [1 0; 0 1]
t ! Mismatch 3 V#1 V#3
bad ! Shape 1
",
);

// The cellular chain complex of the projective plane, over two fields: its homology in the middle depends on the prime.
pub const HOMOLOGY_OF_A_COMPLEX: Example = (
    "\
category T vec 2
register T Identity
register T Compose
register T Zero
register T IsCongruent
register T Kernel
register T Cokernel
register T Lift
finalise T
object T two = 1
object T one = 1
object T nought = 1
let e = T two -> one [2]
let d = T one -> nought [0]
let h = T Homology e d
let exact = T IsExact e d
category Q vec 3
register Q Identity
register Q Compose
register Q Zero
register Q IsCongruent
register Q Kernel
register Q Cokernel
register Q Lift
finalise Q
object Q two3 = 1
object Q one3 = 1
object Q nought3 = 1
let e3 = Q two3 -> one3 [2]
let d3 = Q one3 -> nought3 [0]
let h3 = Q Homology e3 d3
let exact3 = Q IsExact e3 d3
let g3 = Q Homology e3 e3
",
    "\
T: vec 2
T registers Identity 1
T registers Compose 1
T registers Zero 1
T registers IsCongruent 2
T registers Kernel 20
T registers Cokernel 20
T registers Lift 20
T final
T#1: 1
two = T#1
T#2: 1
one = T#2
T#3: 1
nought = T#3
e = T#1 -> T#2 [0]
d = T#2 -> T#3 [0]
T#4: 1
T#5: 1
h = T#4 -> T#2 [1] | T#4 -> T#5 [1]
exact = false
Q: vec 3
Q registers Identity 1
Q registers Compose 1
Q registers Zero 1
Q registers IsCongruent 2
Q registers Kernel 20
Q registers Cokernel 20
Q registers Lift 20
Q final
Q#1: 1
two3 = Q#1
Q#2: 1
one3 = Q#2
Q#3: 1
nought3 = Q#3
e3 = Q#1 -> Q#2 [2]
d3 = Q#2 -> Q#3 [0]
Q#4: 1
Q#5: 0
h3 = Q#4 -> Q#2 [1] | Q#4 -> Q#5 []
exact3 = true
g3 ! Mismatch 3 Q#2 Q#1
",
);

// The image and the coimage of a matrix, and the union of two subspaces.
pub const IMAGES: Example = (
    "\
category V vec 3
register V Identity
register V Compose
register V Zero
register V Add
register V Scale
register V IsCongruent
register V ZeroObject
register V DirectSum
register V Kernel
register V Cokernel
register V Lift
register V Colift
finalise V
object V a = 3
object V b = 3
let f = V a -> b [1 1 0; 2 2 0; 0 0 1]
let i = V Image f
let back = V Compose i.1 i.2
let same = V IsCongruent back f
let co = V Coimage f
object V c = 1
let m = V c -> b [1 0 0]
let n = V c -> b [0 1 0]
let u = V Union m n
let d = V Intersection m n
",
    "\
V: vec 3
V registers Identity 1
V registers Compose 1
V registers Zero 1
V registers Add 1
V registers Scale 1
V registers IsCongruent 2
V registers ZeroObject 1
V registers DirectSum 5
V registers Kernel 20
V registers Cokernel 20
V registers Lift 20
V registers Colift 20
V final
V#1: 3
a = V#1
V#2: 3
b = V#2
f = V#1 -> V#2 [1 1 0; 2 2 0; 0 0 1]
V#3: 2
i = V#1 -> V#3 [1 0; 2 0; 0 1] | V#3 -> V#2 [1 1 0; 0 0 1]
back = V#1 -> V#2 [1 1 0; 2 2 0; 0 0 1]
same = true
V#4: 2
co = V#1 -> V#4 [1 0; 2 0; 0 1] | V#4 -> V#2 [1 1 0; 0 0 1]
V#5: 1
c = V#5
m = V#5 -> V#2 [1 0 0]
n = V#5 -> V#2 [0 1 0]
V#6: 2
u = V#6 -> V#2 [1 0 0; 0 1 0]
V#7: 0
d = V#7 -> V#2 []
",
);

// A matrix of rank one over the field of five elements, its kernel and its cokernel.
pub const KERNELS_AND_COKERNELS: Example = (
    "\
category V vec 5
register V Identity
register V Compose
register V Zero
register V Add
register V Scale
register V IsCongruent
register V ZeroObject
register V DirectSum
register V Kernel
register V Cokernel
register V Lift
register V Colift
finalise V
object V a = 3
object V b = 2
let f = V a -> b [1 2; 2 4; 0 0]
let k = V Kernel f
let z = V Compose k f
let zero = V IsZero z
let c = V Cokernel f
let mono = V IsMono k
let epi = V IsEpi c
let again = V Kernel f
",
    "\
V: vec 5
V registers Identity 1
V registers Compose 1
V registers Zero 1
V registers Add 1
V registers Scale 1
V registers IsCongruent 2
V registers ZeroObject 1
V registers DirectSum 5
V registers Kernel 20
V registers Cokernel 20
V registers Lift 20
V registers Colift 20
V final
V#1: 3
a = V#1
V#2: 2
b = V#2
f = V#1 -> V#2 [1 2; 2 4; 0 0]
V#3: 2
k = V#3 -> V#1 [1 2 0; 0 0 1]
z = V#3 -> V#2 [0 0; 0 0]
zero = true
V#4: 1
c = V#2 -> V#4 [1; 2]
mono = true
epi = true
again = V#3 -> V#1 [1 2 0; 0 0 1]
",
);

// A morphism factors through another one, or through none.
pub const LIFTS_THAT_ARE_NONE: Example = (
    "\
category V vec 7
register V Lift
register V Compose
register V Identity
register V IsCongruent
finalise V
object V a = 2
object V b = 1
let f = V a -> b [3; 5]
let t = V b -> b [1]
let u = V Lift t f
let s = V Section f
let r = V Compose s f
let z = V b -> b [0]
let none = V Lift t z
let n = V Compose none f
let i = V Inverse t
let j = V Inverse z
let part = V IsSubobject t z
",
    "\
V: vec 7
V registers Lift 20
V registers Compose 1
V registers Identity 1
V registers IsCongruent 2
V final
V#1: 2
a = V#1
V#2: 1
b = V#2
f = V#1 -> V#2 [3; 5]
t = V#2 -> V#2 [1]
u = V#2 -> V#1 [5 0]
s = V#2 -> V#1 [5 0]
r = V#2 -> V#2 [1]
z = V#2 -> V#2 [0]
none = none
n ! Lacks none
i = V#2 -> V#2 [1]
j = none
part = false
",
);

// A matrix has at most 2048 rows and columns and 1048576 cells.
pub const MATRICES_PAST_THE_LIMITS: Example = (
    "\
category V vec 2
register V Zero
register V DirectSum
register V Identity
finalise V
object V a = 2048
object V b = 512
let z = V Zero a a
let e = V a -> a []
",
    "\
V: vec 2
V registers Zero 1
V registers DirectSum 5
V registers Identity 1
V final
V#1: 2048
a = V#1
V#2: 512
b = V#2
z ! TooLarge 2048 2048
e ! Shape 1
",
);

// A name of an object is the category's: both sessions are given the same objects, under numbers of their own.
pub const NAMES_IN_TWO_SESSIONS: Example = (
    "\
category V vec 11
register V Compose
finalise V
session first
object V a = 2
object V b = 1
let f = V a -> b [1; 3]
end
session second
object V b = 1
object V a = 2
let g = V b -> b [-1]
let h = V Compose g g
let x = src h
end
",
    "\
V: vec 11
V registers Compose 1
V final
session first
V#1: 2
a = V#1
V#2: 1
b = V#2
f = V#1 -> V#2 [1; 3]
session second
V#1: 1
b = V#1
V#2: 2
a = V#2
g = V#1 -> V#1 [10]
h = V#1 -> V#1 [1]
x = V#1
",
);

// A name of an object is the category's: the session that comes later finds it taken.
pub const NAME_THAT_ANOTHER_SESSION_TOOK: Example = (
    "\
category V vec 11
register V Compose
finalise V
session first
object V a = 2
object V b = 1
end
session second
object V a = 3
object V b = 1
let f = V a -> b [1]
let g = V b -> b [-1]
let h = V Compose g g
let x = src h
end
",
    "\
V: vec 11
V registers Compose 1
V final
session first
V#1: 2
a = V#1
V#2: 1
b = V#2
session second
V#1: 2
a ! NameTaken V#1
V#2: 1
b = V#2
f ! Lacks a
g = V#2 -> V#2 [10]
h = V#2 -> V#2 [1]
x = V#2
",
);

// What can't be derived is missing; what isn't offered can't be registered; a category is made final once.
pub const OPERATION_THAT_IS_MISSING: Example = (
    "\
category V vec 5
let early = V ZeroObject
register V Pullback 10
register V Pullback 11
register V Image
register V Negate
finalise V
finalise V
register V Lift
object V a = 2
let f = V a -> a [1 0; 0 0]
let p = V Pullback f f
let k = V Kernel f
let i = V IsIso f
",
    "\
V: vec 5
early ! NotFinal
V registers Pullback 10
V ! Twice 10
V ! NotOffered Image
V ! NotOffered Negate
V final
V ! AlreadyFinal 5
V ! AlreadyFinal 5
V#1: 2
a = V#1
f = V#1 -> V#1 [1 0; 0 0]
V#2: 3
p = V#2 -> V#1 [1 0; 0 1; 0 0] | V#2 -> V#1 [1 0; 0 0; 0 1]
k ! Missing Kernel
i ! Missing IsIso
",
);

// No pullback is registered, so that it is derived from direct sums and kernels.
pub const PULLBACK_BY_ITS_RULE: Example = (
    "\
category V vec 5
register V Identity
register V Compose
register V Zero
register V Add
register V Scale
register V IsCongruent
register V DirectSum
register V Kernel
register V Lift
finalise V
object V a = 2
object V b = 1
object V c = 1
let f = V a -> c [1; 1]
let g = V b -> c [1]
let w = V Pullback f g
let p = src w.1
let left = V Compose w.1 f
let right = V Compose w.2 g
let meet = V IsCongruent left right
let both = V Intersection f g
",
    "\
V: vec 5
V registers Identity 1
V registers Compose 1
V registers Zero 1
V registers Add 1
V registers Scale 1
V registers IsCongruent 2
V registers DirectSum 5
V registers Kernel 20
V registers Lift 20
V final
V#1: 2
a = V#1
V#2: 1
b = V#2
V#3: 1
c = V#3
f = V#1 -> V#3 [1; 1]
g = V#2 -> V#3 [1]
V#4: 2
w = V#4 -> V#1 [1 0; 0 1] | V#4 -> V#2 [1; 1]
p = V#4
left = V#4 -> V#3 [1; 1]
right = V#4 -> V#3 [1; 1]
meet = true
both = V#4 -> V#3 [1; 1]
",
);

// Two sessions ask for one kernel: the second is given the first one's object, under its own number.
pub const SESSIONS_THAT_SHARE_A_CACHE: Example = (
    "\
category V vec 5
register V Kernel
register V Compose
finalise V
object V a = 2
object V b = 2
let f = V a -> b [1 2; 2 4]
session one
let k = V Kernel f
object V mine = 4
end
session two
object V mine = 4
let k = V Kernel f
let l = V Kernel f
let t = src k
end
",
    "\
V: vec 5
V registers Kernel 20
V registers Compose 1
V final
V#1: 2
a = V#1
V#2: 2
b = V#2
f = V#1 -> V#2 [1 2; 2 4]
session one
V#3: 1
k = V#3 -> V#1 [1 2]
V#4: 4
mine = V#4
session two
V#3: 4
mine = V#3
V#4: 1
k = V#4 -> V#1 [1 2]
l = V#4 -> V#1 [1 2]
t = V#4
",
);
