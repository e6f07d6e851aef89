// The hub: a service of the same format, which takes less. Each operation takes any bytes and finishes.
#![tactic(auto)]

ghost use Rattle.std.specs.Prelude.{◌≡◌};
ghost use Rattle.hub.specs.Hub.{hub};

use service_core::Service;
use sheet::{Limits, Taken};

// The service, with a row for each set of a component's atoms.
pub fn service() -> Service<16>
    ensures { result.limits ≡ hub }
{
    let taken = Taken {
        atoms: 24,
        component: 4,
        entries: 96,
    };
    let limits = Limits {
        atoms: 64,
        records: 128,
        component: 10,
        entries: 640,
        taken,
    };
    Service { limits }
}
