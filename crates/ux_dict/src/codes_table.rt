//! One list of codes for all entries of equal codes, with the text that is printed for it.
//!
//! Most lines have their codes as they are printed, and few such texts differ. So a line's codes are
//! found by their text, and read only where the text is new.

ghost use Rattle.std.specs.Prelude.{◌≡◌, ◌↔◌, IsTrue, IfOk, IfSome};
ghost use Rattle.ux_dela.specs.Printed.{IsCodesText, printed_list};

use indexmap::IndexMap;
use std::alloc::{AllocError, Global};
use std::hash::{Hash, Hasher};
use std::marker::Model;
use std::rc::Rc;
use ux_base::{NoMemory, Txt};
use ux_dela::{Codes, print_codes, read_codes};

/// The bytes of the longest text by which codes are found. A longer one, as a constant with its
/// content, would cost its length once more and hardly come again.
const LONGEST_TEXT: usize = 64;

/// Codes, compared by all of their parts.
#[derive(Drop)]
pub struct WholeCodes {
    codes: Codes,
}

impl Model for WholeCodes {
    ghost use Rattle.ux_dela.specs.declared.entry.Codes.{Codes};

    ghost Value = { Codes };

    ghost view = { λ whole. whole.codes };
}

impl WholeCodes {
    fn new(codes: Codes) -> WholeCodes
        ensures { result ≡ codes }
    {
        WholeCodes { codes }
    }

    /// A copy of the codes.
    fn copy(&self) -> Result<Codes, AllocError>
        ensures { IfOk result (λ codes. codes ≡ self.now) }
    {
        self.codes.copy()
    }
}

impl PartialEq for WholeCodes {
    ghost use Rattle.std.specs.Cmp.{partial_equiv_from_equiv};
    ghost use Rattle.ux_dict.specs.Equal.{codes_eq, codes_equiv};

    ghost eq = { codes_eq };

    ghost laws = { partial_equiv_from_equiv codes_equiv };

    fn eq(&self, other: &WholeCodes) -> bool {
        self.codes.same(&other.codes)
    }
}

impl Eq for WholeCodes {
    ghost use Rattle.ux_dict.specs.Equal.{codes_equiv};

    ghost laws = { codes_equiv };
}

impl Hash for WholeCodes {
    ghost use Rattle.std.specs.Hash as fed;
    ghost use Rattle.ux_dict.specs.Equal.{codes_writes_of, codes_eq-Decides};

    ghost hash_input = { codes_writes_of };

    ghost respects_eq = { (fed.same_Alike codes_writes_of codes_eq-Decides).fed };

    fn hash<H: Hasher>(&self, state: &mut H) {
        self.codes.gram.hash(state);
        self.codes.sem.hash(state);
        self.codes.infl.hash(state);
    }
}

/// Codes that entries share, with the text that is printed for them.
#[derive(Drop)]
pub struct SharedCodes {
    codes: Codes,
    printed: Txt,
}

impl Model for SharedCodes {
    ghost use Rattle.std.specs.Prelude.{◌≡◌};
    ghost use Rattle.ux_dela.specs.Printed.{printed_list};
    ghost use Rattle.ux_dela.specs.declared.entry.Codes.{Codes};

    ghost Value = { Codes };

    ghost view = { λ shared. shared.codes };

    ghost invariant = { λ shared. shared.printed
        ≡ printed_list shared.codes.gram shared.codes.sem shared.codes.infl };
}

impl SharedCodes {
    /// The codes to share.
    fn of(alloc: Global, codes: Codes) -> Result<SharedCodes, AllocError>
        ensures { IfOk result (λ shared. shared ≡ codes) }
    {
        let printed = printed_text(alloc, &codes)?;
        Ok(SharedCodes { codes, printed })
    }

    /// The codes, lent.
    pub(crate) fn codes(&self) -> &Codes
        ensures { result.now ≡ self.now }
    {
        &self.codes
    }

    /// The text that is printed for the codes, lent.
    pub(crate) fn printed(&self) -> &str
        ensures { result.now ≡ printed_list self.now.gram self.now.sem self.now.infl }
    {
        self.printed.as_str()
    }
}

/// The different lists of codes so far, each once. Contracts see them alone.
#[derive(Drop)]
pub struct CodesTable {
    known: IndexMap<WholeCodes, Rc<SharedCodes>>,
    /// The codes of the texts that were asked for.
    by_text: IndexMap<String, Rc<SharedCodes>>,
}

impl Model for CodesTable {
    ghost use Rattle.std.specs.Prelude.{◌≡◌, All, List, string_bytes};
    ghost use Rattle.indexmap.specs.IndexMap.{keys};
    ghost use Rattle.ux_dela.specs.Printed.{IsCodesText};
    ghost use Rattle.ux_dela.specs.declared.entry.Codes.{Codes};

    ghost Value = { List Codes };

    ghost view = { λ table. keys table.known };

    ghost invariant = { λ table. All (λ entry. entry.1.value ≡ entry.0) table.known.entries
        × All (λ entry. IsCodesText (string_bytes entry.0) entry.1.value) table.by_text.entries };
}

impl CodesTable {
    /// The table without codes.
    pub(crate) fn new(alloc: Global) -> CodesTable {
        CodesTable {
            known: IndexMap::new(alloc),
            by_text: IndexMap::new(alloc),
        }
    }

    /// The codes, shared with all that asked for equal ones. Takes memory only for codes that no one
    /// asked for before.
    pub(crate) fn shared(
        &mut self,
        alloc: Global,
        codes: Codes,
    ) -> Result<Rc<SharedCodes>, AllocError>
        ensures { IfOk result (λ shared. shared.value ≡ codes) }
    {
        let codes = WholeCodes::new(codes);
        if let Some(old) = self.known.get(&codes) {
            return old.clone();
        }
        let new = Rc::new(alloc, SharedCodes::of(alloc, codes.copy()?)?)?;
        self.known.insert(codes, new.clone()?)?;
        Ok(new)
    }

    /// The codes for which the text is what is printed, shared as `shared` does. None where it is
    /// printed for no codes, or is longer than those that are kept. A text that was asked for before
    /// takes a look-up and no memory.
    pub(crate) fn printed_as(
        &mut self,
        alloc: Global,
        text: &str,
    ) -> Result<Option<Rc<SharedCodes>>, AllocError>
        ensures { IfOk result (λ found. IfSome found (λ shared. IsCodesText text.now shared.value)) }
    {
        if text.len() > LONGEST_TEXT {
            return Ok(None);
        }
        if let Some(old) = self.by_text.get(text) {
            return Ok(Some(old.clone()?));
        }
        match codes_of(alloc, text)? {
            Some(codes) => Ok(Some(self.noted(alloc, text, codes)?)),
            None => Ok(None),
        }
    }

    /// The codes, shared, and from now on found by their text.
    fn noted(
        &mut self,
        alloc: Global,
        text: &str,
        codes: Codes,
    ) -> Result<Rc<SharedCodes>, AllocError>
        requires { IsCodesText text.now codes }
        ensures { IfOk result (λ shared. shared.value ≡ codes) }
    {
        let shared = self.shared(alloc, codes)?;
        let key = String::from_str(alloc, text)?;
        self.by_text.insert(key, shared.clone()?)?;
        Ok(shared)
    }
}

/// The codes as they are printed.
fn printed_text(alloc: Global, codes: &Codes) -> Result<Txt, AllocError>
    ensures { IfOk result (λ text.
        text ≡ printed_list codes.now.gram codes.now.sem codes.now.infl) }
{
    match print_codes(alloc, codes) {
        Ok(text) => Ok(Txt::new(text)),
        Err(NoMemory) => Err(AllocError),
    }
}

/// The codes for which the text is what is printed, if there are any.
fn codes_of(alloc: Global, text: &str) -> Result<Option<Codes>, AllocError>
    ensures { IfOk result (λ found. IfSome found (IsCodesText text.now)) }
{
    match read_codes(alloc, text) {
        Ok(found) => Ok(found),
        Err(NoMemory) => Err(AllocError),
    }
}
