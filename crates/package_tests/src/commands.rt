//! Lines of a script, and the commands that they are.

use hii_commands::{BadLine, Command, LineBuffer, read_line};

#[test]
fn a_line_is_a_command_or_bad(rt: HostRuntime) {
    assert!(rt; matches!(read_line(b"go 7\r"), Ok(Command::Go(7))));
    assert!(rt; matches!(read_line(b"go 7 "), Err(BadLine::BadCommand)));
    let cause = BadLine::LineTooLong.cause();
    assert!(rt; cause.number() == 71 && cause.name() == "LineTooLong");
}

#[test]
fn a_line_comes_in_pieces(rt: HostRuntime) {
    let mut buffer = LineBuffer::new(rt.alloc()).expect(&rt, "a buffer");
    assert!(rt; !buffer.feed(b"pa").complete);
    let fed = buffer.feed(b"ge\nset");
    assert!(rt; fed.taken == 3 && fed.complete);
    assert!(rt; buffer.line() == Ok(b"page".as_slice()));
    buffer.clear();
}
