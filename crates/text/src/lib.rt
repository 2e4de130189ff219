// Text put into lent bytes. Each function writes from position `at` on and gives the position behind what it wrote; past the
// end of the bytes nothing is written.
#![tactic(auto)]

ghost use Rattle.std.specs.Prelude.{◌≡◌, ◌^◌, ◌<◌};
ghost use Rattle.spec_words.specs.Words.{store};
ghost use Rattle.text.specs.Text.{decimal};
ghost use Rattle.text.specs.Puts.{Puts};

#[tactic(auto, unfolding(spec_words::specs::Words::store))]
fn put_byte(out: &mut [u8], at: usize, b: u8)
    ensures { out.new ≡ store out.old at b }
{
    if at < out.len() {
        out[at] = b;
    }
}

// The bytes of a text.
pub fn put(out: &mut [u8], at: usize, text: &[u8]) -> usize
    requires { at < 2 ^ 40 }
    ensures { Puts out.old at text.now out.new result }
{
    for (i, &b) in text.iter().enumerate() {
        put_byte(out, at + i, b);
    }
    at + text.len()
}

// A number in decimal digits.
pub fn number(out: &mut [u8], at: usize, n: u64) -> usize
    requires { at < 2 ^ 40 }
    ensures { Puts out.old at (decimal n) out.new result }
{
    let mut digits = [0u8; 20];
    let k = io::decimal(n, &mut digits);
    put(out, at, &digits[..k])
}
