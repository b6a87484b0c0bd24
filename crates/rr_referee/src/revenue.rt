//! What a run earns.
ghost use Rattle.std.specs.Prelude.{◌≡◌, ◌<◌, ◌^◌, IfOk};
ghost use Rattle.rr_routes.specs.Routes.{centres, earned, worth};

use crate::course::Journey;
use rr_checker::{Net, centres_of, value};
use std::alloc::{AllocError, Global};

// What the routes earn together.
pub(crate) fn revenue_of(
    alloc: Global,
    net: &Net,
    journeys: &[Journey],
) -> Result<usize, AllocError>
    requires { earned net.now journeys.now < 2 ^ 64 }
    ensures { IfOk result (λ revenue. revenue ≡ earned net.now journeys.now) }
{
    let mut revenue = 0;
    for journey in journeys {
        revenue += revenue_along(alloc, net, journey)?;
    }
    Ok(revenue)
}

// What one route earns.
fn revenue_along(alloc: Global, net: &Net, journey: &Journey) -> Result<usize, AllocError>
    requires { worth net.now (centres journey.now.nodes) < 2 ^ 64 }
    ensures { IfOk result (λ revenue. revenue ≡ worth net.now (centres journey.now.nodes)) }
{
    let counted = centres_of(alloc, journey.nodes())?;
    Ok(worth(net, &counted))
}

fn worth(net: &Net, counted: &[usize]) -> usize
    requires { worth net.now counted.now < 2 ^ 64 }
    ensures { result ≡ worth net.now counted.now }
{
    counted.iter().map(|centre| value(net, *centre)).sum()
}
