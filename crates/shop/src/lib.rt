//! The sample shop: a router for panels of 600 by 400 mm with one corner cut off.
#![tactic(auto)]

ghost use Rattle.std.specs.Prelude.{◌≡◌};
ghost use Rattle.motions.specs.Model.{home_of};
ghost use Rattle.geometry.specs.Model.{limits_of, normal_of, limit_of};
ghost use Rattle.shop.specs.Shop.{shop_limits, shop_normal, shop_edge, shop_home};

use geometry::area::Pair;
use geometry::edge::Edge;
use geometry::limit_box::LimitBox;
use motions::axes::Axes;
use motions::home::Home;
use motions::limits::Limits;

/// The shop's box: X from 0 to 600 mm, Y from 0 to 400 mm, Z from -50 to 100 mm.
fn table() -> LimitBox
    ensures limits { limits_of result ≡ shop_limits }
{
    let lower = Axes {
        x: Some(0),
        y: Some(0),
        z: Some(-50_000),
    };
    let upper = Axes {
        x: Some(600_000),
        y: Some(400_000),
        z: Some(100_000),
    };
    LimitBox::new(Limits { lower, upper }).unwrap()
}

/// The cut corner: X + Y is at most 900 mm.
fn cut() -> Edge
    ensures normal { normal_of result ≡ shop_normal }
    ensures limit { limit_of result ≡ shop_edge }
{
    Edge::new(Axes { x: 1, y: 1, z: 0 }, 900_000).unwrap()
}

/// The area that no motion may leave.
pub fn fixed_area() -> Pair<LimitBox, Edge>
    ensures limits { limits_of result.first ≡ shop_limits }
    ensures normal { normal_of result.second ≡ shop_normal }
    ensures limit { limit_of result.second ≡ shop_edge }
{
    Pair {
        first: table(),
        second: cut(),
    }
}

/// Where the machine stands at first.
pub fn home() -> Home
    ensures position { home_of result ≡ shop_home }
{
    Home::new(Axes {
        x: 0,
        y: 0,
        z: 100_000,
    })
    .unwrap()
}
