//! The order of the messages of a folder (maildir(5), "Technical details").

ghost use Rattle.std.specs.Prelude.{◌≡◌, true};
ghost use Rattle.std.specs.Char.{is_ascii_digit};
ghost use Rattle.maildir_names.specs.BaseOrder as spec;

// The number with a digit behind it, or the greatest order.
fn with_digit(order: u64, digit: u8) -> u64
    requires { is_ascii_digit digit ≡ true }
    ensures { result ≡ spec.with_digit order digit }
{
    order
        .saturating_mul(10)
        .saturating_add(u64::from(digit - b'0'))
}

/// The number of the digits with which a base begins, by convention the seconds from 1970 to the
/// delivery; 0 without a digit, and all numbers past 18,446,744,073,709,551,615 are that one.
#[tactic(auto, using(crate::proofs::OrderLemmas::number_ends))]
pub fn order_of(base: &[u8]) -> u64
    ensures { result ≡ spec.order_of base.now }
{
    let mut order = 0;
    let mut left = base;
    while let [first, rest @ ..] = left {
        if !first.is_ascii_digit() {
            return order;
        }
        order = with_digit(order, *first);
        left = rest;
    }
    order
}
