// What is below a layer before and after it is settled.
ghost use Rattle.std.specs.Prelude.{◌≡◌, length};

use crate::Gather;
use sink::Sink;
use sink::plain::Plain;

// How many bytes the sink below a layer has.
fn below_len<S: Sink>(layer: &Gather<S>) -> usize
    ensures { result ≡ length (S.Sink.view layer.now.below).bytes }
{
    layer.below.len()
}

#[test]
fn short_parts_wait_until_settled(rt: HostRuntime) {
    let mut memory = [7u8; 8];
    let mut plain = Plain::new(&mut memory);
    let mut layer = Gather::new(&mut plain);
    assert!(rt; layer.put(b"abc").is_ok());
    assert!(rt; layer.put(b"de").is_ok());
    assert_eq!(rt; below_len(&layer), 0);
    assert_eq!(rt; layer.waiting(), 5);
    assert_eq!(rt; layer.room(), 3);
    layer.settle();
    assert_eq!(rt; below_len(&layer), 5);
    assert_eq!(rt; layer.waiting(), 0);
    assert_eq!(rt; memory, [97, 98, 99, 100, 101, 7, 7, 7]);
}
