// The laws that every room cites; its one routine is the greatest common divisor.
#![tactic(auto)]

ghost use Rattle.laws.specs.Divisor.{IsGcd};

pub fn gcd(a: u32, b: u32) -> u32
    ensures { IsGcd a b result }
{
    let mut x = a;
    let mut y = b;
    while y != 0 {
        let rest = x % y;
        x = y;
        y = rest;
    }
    x
}
