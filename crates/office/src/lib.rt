// The office: a service that takes all that the format allows. Each operation takes any bytes and finishes.
#![tactic(auto)]

ghost use Rattle.std.specs.Prelude.{◌≡◌};
ghost use Rattle.office.specs.Office.{office};

use service_core::Service;
use sheet::{Limits, Taken};

// The service, with a row for each set of a component's atoms.
pub fn service() -> Service<1024>
    ensures { result.limits ≡ office }
{
    let taken = Taken {
        atoms: 64,
        component: 10,
        entries: 640,
    };
    let limits = Limits {
        atoms: 64,
        records: 128,
        component: 10,
        entries: 640,
        taken,
    };
    Service { limits }
}
