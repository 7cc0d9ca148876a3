//! Tests of output to a terminal.
use edit_terminal::{ReportWriter, TerminalWriter};
use std::alloc::Global;
use std::io;
use std::io::Write;
use std::test::Fail;

/// A writer to a vector, which has got these pieces of a text.
fn write_pieces(alloc: Global, pieces: &[&[u8]]) -> io::Result<TerminalWriter<Vec<u8>>> {
    let mut writer = TerminalWriter::new(alloc, Vec::new(alloc));
    for piece in pieces {
        writer.write_all(piece)?;
    }
    Ok(writer)
}

#[test]
fn escapes_what_a_terminal_acts_on(rt: HostRuntime) -> Result<(), Fail> {
    let text = "a\tb\n\u{1b}[2J\r\0\u{7f}\u{9b}31m\u{202e}\u{2028}\u{61c}é漢😀\n";
    let wanted = "a\tb\n\\u{1b}[2J\\r\\0\\u{7f}\\u{9b}31m\\u{202e}\\u{2028}\\u{61c}é漢😀\n";
    let writer = write_pieces(rt.alloc(), &[text.as_bytes()])?;
    assert_eq!(rt; writer.get_ref().as_slice(), wanted.as_bytes());
    Ok(())
}

#[test]
fn joins_the_pieces_of_a_character(rt: HostRuntime) -> Result<(), Fail> {
    let writer = write_pieces(rt.alloc(), &[b"a\xc2", b"\x9b\xf0", b"\x9f\x98", b"\x80"])?;
    assert_eq!(rt; writer.get_ref().as_slice(), "a\\u{9b}😀".as_bytes());
    assert!(rt; write_pieces(rt.alloc(), &[b"\xff"]).is_err());
    Ok(())
}

#[test]
fn writes_a_report_by_the_line(rt: HostRuntime) -> Result<(), Fail> {
    let mut writer = ReportWriter::new(rt.alloc(), Vec::new(rt.alloc()), true);
    writer.write_all(b"    Checki")?;
    assert_eq!(rt; writer.get_ref().len(), 0);
    writer.write_all("ng \u{e9}\u{1b}\nrest".as_bytes())?;
    let line = "\u{1b}[1;32m    Checking\u{1b}[0m \u{e9}\\u{1b}\n";
    assert_eq!(rt; writer.get_ref().as_slice(), line.as_bytes());
    writer.flush()?;
    assert_eq!(rt; writer.get_ref().len(), line.len() + 4);
    assert!(rt; writer.write_all(b"\xff\n").is_err());
    Ok(())
}
