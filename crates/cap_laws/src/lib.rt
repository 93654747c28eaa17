//! Linear, additive and abelian categories whose morphisms are data: the definitions, and the laws that each implementation proves.
#![tactic(auto)]

mod category;
pub mod examples;
mod faults;
pub mod laws;
mod table;
mod universal;
mod values;

pub use category::{Additive, Cat, Preadditive};
pub use faults::CatFault;
pub use table::Table;
pub use universal::{Abelian, Lifts, WeakCokernels, WeakKernels};
pub use values::{Equation, Sum, System, Term};
