// Why no morphism is made.
use cap_laws::CatFault;
use thiserror::Error;

/// No omega makes the square commute, or a fault of the category below.
#[derive(Debug, Clone, Copy, PartialEq, Eq, Error)]
pub enum MorphismFault {
    #[error("the relations of the source are not sent into those of the target")]
    NotAMorphism,
    #[error("{0}")]
    Cat(CatFault),
}

impl From<CatFault> for MorphismFault {
    ghost use Rattle.std.specs.Prelude.{◌≡◌};
    ghost use Rattle.cap_freyd.specs.declared.faults.MorphismFault.TheVariants.{Cat};

    ghost from_gives = { λ f e. e ≡ Cat f };

    fn from(fault: CatFault) -> MorphismFault {
        MorphismFault::Cat(fault)
    }
}
