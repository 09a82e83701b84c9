//! What a run in the sample shop starts from.
ghost use Rattle.std.specs.Prelude.{◌≡◌};
ghost use Rattle.rules.specs.Model.{setup_is};
ghost use Rattle.tracelist.specs.Start.{shop_setup};

use geometry::limit_box::LimitBox;
use motions::axes::Axes;
use motions::limits::Limits;
use rules::run::Setup;
use rules::state::Zeros;
use shop::home;

/// No limits on the panel, no zero points, and the machine at home.
pub fn setup() -> Setup
    ensures value { setup_is result ≡ shop_setup }
{
    let limits = LimitBox::new(Limits {
        lower: Axes::alike(None),
        upper: Axes::alike(None),
    })
    .unwrap();
    let zero = Axes::alike(0);
    let zeros = Zeros {
        g54: zero,
        g55: zero,
        g56: zero,
        g57: zero,
    };
    Setup {
        limits,
        zeros,
        at: home(),
    }
}
