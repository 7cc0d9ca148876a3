//! Tests of texts that a shell evaluates.
use edit_shell::{push_arguments, push_assignment, push_word};
use std::test::Fail;

#[test]
fn quotes_an_assignment(rt: HostRuntime) -> Result<(), Fail> {
    let mut text = Vec::new(rt.alloc());
    push_assignment(&mut text, "manifest", "a b/$HOME/it's/`x`\n")?;
    assert_eq!(rt;
        text.as_slice(),
        b"manifest='a b/$HOME/it'\\''s/`x`\n'\n".as_slice()
    );
    Ok(())
}

#[test]
fn quotes_arguments(rt: HostRuntime) -> Result<(), Fail> {
    let alloc = rt.alloc();
    let mut arguments = Vec::new(alloc);
    for argument in ["update", "", "'"] {
        arguments.push(String::from_str(alloc, argument)?)?;
    }
    let mut text = Vec::new(alloc);
    push_arguments(&mut text, &arguments)?;
    assert_eq!(rt; text.as_slice(), b"set -- 'update' '' ''\\'''\n".as_slice());
    Ok(())
}

#[test]
fn quotes_words(rt: HostRuntime) -> Result<(), Fail> {
    for (word, wanted) in [
        ("--manifest-path", "--manifest-path"),
        ("serde@1.0.5", "serde@1.0.5"),
        ("a b", "'a b'"),
        ("it's", "'it'\\''s'"),
        ("", "''"),
        ("~", "'~'"),
    ] {
        let mut text = Vec::new(rt.alloc());
        push_word(&mut text, word)?;
        assert_eq!(rt; text.as_slice(), wanted.as_bytes());
    }
    Ok(())
}
