//! What the program says of itself.
ghost use Rattle.std.specs.Prelude.{◌≡◌, [], ◌∷◌};
ghost use Rattle.pj_words.specs.Words.{about_by};

use crate::command::command;
use clap::error::ErrorKind;
use pj_value::NoMemory;
use std::alloc::Global;

/// What the arguments ask the program to say of itself, instead of running a script.
#[derive(Clone, Copy, Debug, PartialEq, Eq)]
pub enum About {
    /// How it is called.
    Help,
    /// Its name and version.
    Version,
}

/// What a parse asks for that ends with this kind.
pub(crate) fn about_of_kind(kind: ErrorKind) -> Option<About>
    ensures { result ≡ about_by (kind ∷ []) }
{
    match kind {
        ErrorKind::DisplayHelp => Some(About::Help),
        ErrorKind::DisplayVersion => Some(About::Version),
        _ => None,
    }
}

/// The text, of whole lines, as `clap` makes it.
pub fn about_text(alloc: Global, about: About) -> Result<String, NoMemory> {
    let mut command = command(alloc)?;
    let text = match about {
        About::Help => command.render_help()?,
        About::Version => command.render_version()?,
    };
    Ok(text)
}
