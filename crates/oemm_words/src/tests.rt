use super::*;
use mesh_out::Form;
use oemm_lists::Copied;
use std::alloc::{AllocError, Global};
use std::test::Fail;

fn words_of(alloc: Global, words: &[&str]) -> Result<CommandWords, AllocError> {
    let mut all = CommandWords::new(alloc);
    for word in words {
        all.push(word)?;
    }
    Ok(all)
}

#[test]
fn command_words_are_their_bytes(rt: HostRuntime) -> Result<(), Fail> {
    let words = words_of(rt.alloc(), &["run", "a b"])?;
    assert_eq!(rt; words.len(), 2);
    assert_eq!(rt; words.at(1).copy(rt.alloc())?.as_str(), "a b");
    assert_eq!(rt; words.slice().len(), 2);
    assert_eq!(rt; words.copy(rt.alloc())?.at(0).as_str(), "run");
    Ok(())
}

#[test]
fn forms_of_words(rt: HostRuntime) -> Result<(), Fail> {
    for (words, form) in [
        (["run", "a", "b", "c.off"].as_slice(), Some(Form::Off)),
        (["run", "-", "-", ".ply"].as_slice(), Some(Form::Ply)),
        (["run", "a", "b", "c.obj"].as_slice(), None),
        (["run", "a", "b", "c.OFF"].as_slice(), None),
        (["run", "a", "b", "-c.off"].as_slice(), None),
        (["run", "a", "b", "--x.off"].as_slice(), None),
        (["run", "a", "b", ""].as_slice(), None),
        (["ru", "a", "b", "c.off"].as_slice(), None),
        (["runs", "a", "b", "c.off"].as_slice(), None),
        (["-", "a", "b", "c.off"].as_slice(), None),
        (["run", "a", "b"].as_slice(), None),
        ([].as_slice(), None),
    ] {
        let words = words_of(rt.alloc(), words)?;
        let read = match read_words(rt.alloc(), &words) {
            Ok(Order::Run { form, .. }) => Some(form),
            Err(_) => None,
        };
        assert_eq!(rt; read, form);
        assert_eq!(rt; roles(&words).ok().and_then(|r| r.out), form.map(|_| 3));
    }
    Ok(())
}
