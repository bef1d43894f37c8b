// Numbers and lines into any sink.
#![tactic(auto)]

ghost use Rattle.std.specs.Prelude.{◌≡◌, ◌≤◌, [], ◌∷◌, ◌++◌, length, decimal};
ghost use Rattle.sink.specs.Calls.{Takes};

use itoa::Buffer;
use sink::Sink;
use sink::refusal::Refusal;

// How many digits n has in decimal.
pub fn digits(n: u64) -> usize
    ensures value { result ≡ length (decimal n) }
    ensures bound { result ≤ 20 }
{
    Buffer::new().format(n).len()
}

// Puts n in decimal, with no sign and no leading zero.
pub fn number<S: Sink>(sink: &mut S, n: u64) -> Result<(), Refusal>
    ensures { Takes S.Sink result (decimal n) sink.old sink.new }
{
    let mut buffer = Buffer::new();
    sink.put(buffer.format(n).as_bytes())
}

// Puts a text and the LF that ends its line, both or neither.
pub fn line<S: Sink>(sink: &mut S, text: &[u8]) -> Result<(), Refusal>
    ensures { Takes S.Sink result (text.now ++ 10 ∷ []) sink.old sink.new }
{
    if text.len() >= (*sink).room() {
        return Err(Refusal::Full);
    }
    sink.put(text)?;
    sink.put(b"\n")
}
