// The law. This function runs nothing: a caller learns the law from the contract.
ghost use Rattle.cap_add_laws.specs.Laws.{IsAdditiveClosure};

use cap_laws::Table;

/// The additive closure of a valid table is an additive category with a homomorphism structure.
pub fn law_additive_closure<T: Table>()
    ensures { (t : T) → IsAdditiveClosure (T.table t) }
{}
