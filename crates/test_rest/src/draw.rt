// Numbers that look random and are the same at every run.
ghost use Rattle.std.specs.Prelude.{◌<◌};

const PRIME: u64 = 2147483647;

fn mixed(h: u64) -> u64
    ensures { result < 2147483647 }
{
    (h % PRIME * 48271 + 11) % PRIME
}

// A number below the bound, by the seed and the place where it is drawn.
pub fn draw(seed: usize, place: usize, below: usize) -> usize
    requires { 0 < below }
    ensures { result < below }
{
    let a = mixed((seed % 1000000 * 1000 + place % 1000) as u64);
    let b = mixed(a ^ (a / 4096));
    let c = mixed(b ^ (b / 512));
    (c / 8) as usize % below
}
