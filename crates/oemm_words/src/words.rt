//! The command line.

ghost use Rattle.std.specs.Prelude.{◌≡◌, ◌≢◌, Some, None, IfOk, IsSome, Err, MatchOption};
ghost use Rattle.oemm_words.specs.Words.{is_plain, form_named, run_form, order_of, form_of, roles_of};

use crate::command_words::{CommandWord, CommandWords};
use crate::orders::{Order, Roles, WordsFault};
use mesh_out::Form;
use oemm_limits::{DEFAULT_CACHE, DEFAULT_CAP, DEFAULT_CORE};
use oemm_lists::Copied;
use std::alloc::Global;

/// Reads what the words ask for.
///
/// # Errors
/// `Usage` where the words are in no form, and `Memory`.
pub fn read_words(alloc: Global, words: &CommandWords) -> Result<Order, WordsFault>
    ensures order { IfOk result (λ order. order_of words.now ≡ Some order) }
    ensures usage { result ≡ Err WordsFault.Usage → order_of words.now ≡ None }
{
    let [command, mesh, script, out] = words.slice() else {
        return Err(WordsFault::Usage);
    };
    let Some(form) = run_form(command, mesh, script, out) else {
        return Err(WordsFault::Usage);
    };
    Ok(Order::Run {
        mesh: mesh.copy(alloc)?,
        script: script.copy(alloc)?,
        out: out.copy(alloc)?,
        form,
        cap: DEFAULT_CAP,
        core: DEFAULT_CORE,
        cache: DEFAULT_CACHE,
        workers: 1,
    })
}

/// The places of the words that name files, and the number of workers.
///
/// # Errors
/// `Usage` where the words are in no form.
pub fn roles(words: &CommandWords) -> Result<Roles, WordsFault>
    ensures roles { IfOk result (λ roles. roles_of words.now ≡ Some roles) }
    ensures usage { result ≡ Err WordsFault.Usage → roles_of words.now ≡ None }
    ensures no_memory { result ≢ Err WordsFault.Memory }
{
    match form_of(words) {
        Some(_) => Ok(Roles {
            mesh: Some(1),
            script: Some(2),
            out: Some(3),
            store: None,
            workers: 1,
        }),
        None => Err(WordsFault::Usage),
    }
}

/// The format that is to be written, if the words ask for a run.
pub fn form_of(words: &CommandWords) -> Option<Form>
    ensures { MatchOption result (order_of words.now ≡ None)
        (λ form. IsSome (order_of words.now) × (form_of words.now ≡ form)) }
{
    match words.slice() {
        [command, mesh, script, out] => run_form(command, mesh, script, out),
        _ => None,
    }
}

fn run_form(
    command: &CommandWord,
    mesh: &CommandWord,
    script: &CommandWord,
    out: &CommandWord,
) -> Option<Form>
    ensures { result ≡ run_form command.now mesh.now script.now out.now }
{
    if command.as_str() == "run" && is_plain(mesh) && is_plain(script) && is_plain(out) {
        form_named(out)
    } else {
        None
    }
}

fn is_plain(word: &CommandWord) -> bool
    ensures { result ≡ is_plain word.now }
{
    let text = word.as_str();
    text == "-" || !text.as_bytes().starts_with(b"-")
}

/// The format that the ending of a word names, if it names one.
fn form_named(word: &CommandWord) -> Option<Form>
    ensures { result ≡ form_named word.now }
{
    let text = word.as_str().as_bytes();
    if text.ends_with(b".off") {
        Some(Form::Off)
    } else if text.ends_with(b".ply") {
        Some(Form::Ply)
    } else {
        None
    }
}
