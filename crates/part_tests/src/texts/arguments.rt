// The name of a script and its arguments.
use crate::checked::holds;
use script_text::Arguments;
use std::alloc::AllocError;
use std::test::Fail;

/// Whether these texts stand in their order, and no others.
fn are(arguments: &Arguments, texts: &[&str]) -> bool {
    for (index, text) in texts.iter().enumerate() {
        if arguments.get(index) != text.as_bytes() {
            return false;
        }
    }
    arguments.len() == texts.len()
        && arguments.get(texts.len()).is_empty()
        && arguments.get(1000).is_empty()
}

/// Adds texts while there is room.
fn add(arguments: &mut Arguments, texts: &[&str]) -> Result<(), AllocError> {
    for text in texts.iter() {
        if arguments.len() < 10 {
            arguments.push(text.as_bytes())?;
        }
    }
    Ok(())
}

const THREE: &[&str] = &["go.cmd", "", "two words"];

const SEVEN: &[&str] = &["x", "x", "x", "x", "x", "x", "x"];

const TEN: &[&str] = &["go.cmd", "", "two words", "x", "x", "x", "x", "x", "x", "x"];

#[test]
fn texts_are_kept_in_their_order(rt: HostRuntime) -> Result<(), Fail> {
    let mut arguments = Arguments::new(rt.alloc());
    holds(&rt, arguments.is_empty(), "no text yet");
    add(&mut arguments, THREE)?;
    holds(
        &rt,
        are(&arguments, THREE) && !arguments.is_full(),
        "three texts",
    );
    add(&mut arguments, SEVEN)?;
    holds(
        &rt,
        are(&arguments, TEN) && arguments.is_full(),
        "ten texts",
    );
    Ok(())
}

const WORDS: &[&str] = &["a b", "1", "two", "3", "4", "5", "6", "7", "8", "9"];

#[test]
fn arguments_are_the_words_of_a_text(rt: HostRuntime) -> Result<(), Fail> {
    let arguments = Arguments::from_text(rt.alloc(), b"a b", b"\t 1 two\t\t3 4 5 6 7 8 9 10 11")?;
    holds(
        &rt,
        are(&arguments, WORDS),
        "words behind the ninth are left out",
    );
    let alone = Arguments::from_text(rt.alloc(), b"go", b" \t ")?;
    holds(&rt, are(&alone, &["go"]), "a text of blanks alone");
    Ok(())
}
