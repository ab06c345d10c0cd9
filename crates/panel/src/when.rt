// Numbers that count only if so.
ghost use Rattle.std.specs.Prelude.{◌≡◌, cond, ◌≤◌};

// A number if so, else 0.
pub fn when(b: bool, n: u32) -> u32
    ensures value { result ≡ cond b n 0 }
    ensures upper_bound { result ≤ n }
{
    if b { n } else { 0 }
}
