// Going on and replying without a write.
ghost use Rattle.std.specs.Prelude.{◌≡◌};
ghost use Rattle.catalogue.specs.declared.steps.Decision.TheVariants.{Going, Reply};
ghost use Rattle.catalogue.specs.declared.writes.Write.TheVariants.{Nothing};

use catalogue::steps::Decision;
use catalogue::workers::Place;
use catalogue::writes::Write;

pub fn go_to(next: Place) -> Decision
    ensures { result ≡ Going next Nothing }
{
    Decision::Going {
        next,
        write: Write::Nothing,
    }
}

pub fn reply(number: u8) -> Decision
    ensures { result ≡ Reply number Nothing }
{
    Decision::Reply {
        number,
        write: Write::Nothing,
    }
}
