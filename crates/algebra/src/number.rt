//! Products of whole numbers that always fit, and the sign of one that may not.
ghost use Rattle.std.specs.Prelude.{◌≡◌, pos, ◌*ℤ◌, int_lt};

/// The product of two numbers, at twice their width.
pub fn product(a: i32, b: i32) -> i64
    ensures value { result ≡ a *ℤ b }
{
    i64::from(a) * i64::from(b)
}

/// Whether the product of two numbers is above 0, told by their signs: the product itself may not fit.
pub fn product_is_positive(a: i128, b: i128) -> bool
    ensures value { result ≡ int_lt (pos 0) (a *ℤ b) }
{
    if a > 0 { b > 0 } else { a < 0 && b < 0 }
}
