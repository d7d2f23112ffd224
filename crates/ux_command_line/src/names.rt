//! The names of files, handed out in order.
//!
//! Contracts see `Names` as the names that are left.

ghost use Rattle.std.specs.Prelude.{◌≡◌, ◌≢◌, ◌↔◌, ◌∷◌, [], map, OnOk, IfOk, IfErr, IsTrue};
ghost use Rattle.ux_command_line.specs.Matching.{files_in, matched};
ghost use Rattle.std.specs.Vec.Iter.{into_iter_items};
ghost use Rattle.ux_command_line.specs.declared.error.WordsError.TheVariants.{Usage, NoMemory};

use crate::error::WordsError;
use clap::ArgMatches;
use std::alloc::{AllocError, Global};
use std::marker::Model;
use std::vec::IntoIter;
use ux_base::{Lst, Txt};

/// The names that are left.
#[derive(Drop)]
pub struct Names {
    files: IntoIter<Txt>,
}

impl Model for Names {
    ghost use Rattle.std.specs.Prelude.{List, ℕ};
    ghost use Rattle.std.specs.Vec.Iter.{into_iter_items};

    ghost Value = { List (List ℕ) };

    ghost view = { λ n. into_iter_items n.files };
}

impl Names {
    /// The names that clap found.
    pub fn of(alloc: Global, matches: &ArgMatches<'_>) -> Result<Names, AllocError>
        ensures { IfOk result (λ names. names ≡ files_in (matched matches.now)) }
    {
        let names = matches.get_strs("files").unwrap_or(&[]);
        let mut files = Vec::new(alloc);
        for name in names {
            files.push(Txt::from_str(alloc, name)?)?;
        }
        Ok(Names {
            files: files.into_iter(),
        })
    }

    /// The next name, which has to be there.
    pub fn take(&mut self) -> Result<Txt, WordsError>
        ensures ok { IfOk result (λ name. self.old ≡ name ∷ self.new) }
        ensures err { IfErr result (λ e. (e ≡ Usage) × (self.old ≡ [])) }
    {
        self.files.next().ok_or(WordsError::Usage)
    }

    /// Whether no name is left.
    pub fn is_empty(&self) -> bool
        ensures { IsTrue result ↔ (self.now ≡ []) }
    {
        self.files.len() == 0
    }

    /// All names that are left.
    pub fn rest(self, alloc: Global) -> Result<Lst<Txt>, WordsError>
        ensures ok { IfOk result (λ names. names ≡ self) }
        ensures err { IfErr result (λ e. e ≡ NoMemory) }
    {
        Ok(Lst::new(listed(alloc, self.files)?))
    }

    /// Refuses a name that is left.
    pub fn end(mut self) -> Result<(), WordsError>
        ensures ok { OnOk result (self ≡ []) }
        ensures err { IfErr result (λ e. (e ≡ Usage) × (self ≢ [])) }
    {
        match self.files.next() {
            Some(_) => Err(WordsError::Usage),
            None => Ok(()),
        }
    }
}

fn listed(alloc: Global, mut names: IntoIter<Txt>) -> Result<Vec<Txt>, AllocError>
    ensures { IfOk result (λ list. list.items ≡ into_iter_items names) }
{
    let mut list = Vec::new(alloc);
    while let Some(name) = names.next() {
        list.push(name)?;
    }
    Ok(list)
}
