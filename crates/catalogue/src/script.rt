// Why a script is not run: a refusal; or refusal 27, with the number of the first bad line.
ghost use Rattle.std.specs.Prelude.{◌≡◌};
ghost use Rattle.catalogue.specs.declared.script.RunError.TheVariants.{Refused};

use crate::answers::Refusal;

#[derive(Clone, Copy)]
pub enum RunError {
    Refused(Refusal),
    BadScript { line: u32 },
}

impl From<Refusal> for RunError {
    ghost from_gives = { λ refusal e. e ≡ Refused refusal };

    fn from(refusal: Refusal) -> RunError {
        RunError::Refused(refusal)
    }
}
