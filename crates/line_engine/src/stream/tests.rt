// An input whose count of bytes is used up, which no reader of bytes in memory comes to from `u64::MAX`.

use crate::device::{Failed, Source};
use crate::lines::RunFault;
use crate::stream::Input;
use crate::tests::{Feed, INPUT, Tray, play_over};
use std::test::Fail;

fn input_of(left: u64) -> Input<Feed<'static>> {
    Input {
        inner: Feed::new(INPUT),
        left,
        has_failed: false,
    }
}

#[test]
fn no_more_bytes_are_read_than_are_left(rt: HostRuntime) -> Result<(), Fail> {
    let mut input = input_of(3);
    let mut buffer = [0u8; 4];
    assert_eq!(rt; input.read(&mut buffer[..2]), Ok(2));
    assert_eq!(rt; input.read(&mut buffer), Ok(1));
    assert_eq!(rt; input.read(&mut []), Ok(0));
    assert!(rt; !input.failed());
    for _ in 0..2 {
        assert_eq!(rt; input.read(&mut buffer), Err(Failed));
        assert_eq!(rt; input.read(&mut []), Err(Failed));
        assert!(rt; input.failed());
    }
    let feed = input.into_inner();
    assert_eq!(rt; feed.asked, 3);
    assert_eq!(rt; feed.rest, &INPUT[3..]);
    Ok(())
}

#[test]
fn a_used_up_input_gives_its_whole_lines(rt: HostRuntime) -> Result<(), Fail> {
    let alloc = rt.alloc();
    let mut input = input_of(6);
    let mut buffer = [0u8; 4];
    for written in [b"ok abc\nrefused\n".as_slice(), b""] {
        let (result, tray) = play_over(alloc, &mut input, Tray::new(alloc), &mut buffer);
        assert_eq!(rt; result, Err(RunFault::Read));
        assert_eq!(rt; tray.taken.as_slice(), written);
    }
    assert_eq!(rt; input.into_inner().asked, 2);
    Ok(())
}
