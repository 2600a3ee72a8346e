// The declarations, the definitions, and the names that are live.

ghost use Rattle.std.specs.Prelude.{◌≡◌, ◌≤◌, ◌++◌, None, OnOk, OnErr, IfOk, length, replicate, slice_get, option_copied};
ghost use Rattle.smt_build.specs.Names.{no_symbols, declaration_of, meaning_in, is_taken, with_declaration, with_definition, with_definitions, with_sort, pushed, popped, emptied};

use crate::definition::Definition;
use indexmap::IndexMap;
use smt_terms::sort::{DeclId, Signature, Sort};
use smt_text::text::Text;
use std::alloc::{AllocError, Global};
use std::marker::Model;

/// A live name with the number of its declaration.
#[derive(Debug, Drop)]
pub struct LiveName {
    pub name: Text,
    pub declaration: DeclId,
}

/// How many names, definitions of functions and names of sorts were live where a level began.
#[derive(Clone, Copy, Debug)]
pub struct Level {
    pub names: usize,
    pub definitions: usize,
    pub sorts: usize,
}

/// The declarations ever made, the live names in the order of their declarations, and the live definitions.
#[derive(Drop)]
pub struct Symbols {
    live: Vec<LiveName>,
    numbers: IndexMap<Vec<u8>, DeclId>,
    signatures: Vec<Signature>,
    definitions: IndexMap<Vec<u8>, Definition>,
    sorts: IndexMap<Vec<u8>, Sort>,
    levels: Vec<Level>,
}

impl Model for Symbols {
    ghost use Rattle.std.specs.Prelude.{map};
    ghost use Rattle.smt_build.specs.Names.{SymbolsValue, AreNumbers, entry_of};

    ghost Value = { SymbolsValue };

    ghost view = { λ s.
        record {
          live = s.live.items;
          signatures = s.signatures.items;
          definitions = map entry_of s.definitions.entries;
          sorts = map entry_of s.sorts.entries;
          levels = s.levels.items;
        } };

    ghost invariant = { λ s. AreNumbers s.live.items s.numbers.entries };
}

/// Puts so many copies at the end.
fn push_copies(items: &mut Vec<Level>, item: Level, count: u64) -> Result<(), AllocError>
    ensures ok { OnOk result (items.new.items ≡ items.old.items ++ replicate count item) }
    ensures err { OnErr result (items.new.items ≡ items.old.items) }
{
    let len = items.len();
    let mut copies = 0u64;
    while copies < count {
        match items.push(item) {
            Ok(()) => copies += 1,
            Err(refused) => {
                items.truncate(len);
                return Err(AllocError::from(refused));
            }
        }
    }
    Ok(())
}

impl Symbols {
    /// No declarations, no definitions, no names, no levels.
    pub fn new(alloc: Global) -> Symbols
        ensures { result ≡ no_symbols }
    {
        Symbols {
            live: Vec::new(alloc),
            numbers: IndexMap::new(alloc),
            signatures: Vec::new(alloc),
            definitions: IndexMap::new(alloc),
            sorts: IndexMap::new(alloc),
            levels: Vec::new(alloc),
        }
    }

    /// The live names in the order of their declarations.
    pub fn live(&self) -> &[LiveName]
        ensures { result.now ≡ self.now.live }
    {
        self.live.as_slice()
    }

    /// The signature of a declaration, `None` exactly where none of this number was made.
    pub fn signature(&self, declaration: DeclId) -> Option<&Signature>
        ensures { option_copied result ≡ slice_get self.now.signatures declaration }
    {
        self.signatures.get(declaration as usize)
    }

    /// The number of the declaration that a name is live for.
    pub fn declaration(&self, name: &[u8]) -> Option<DeclId>
        ensures { result ≡ declaration_of self.now.live name.now }
    {
        self.numbers.get(name).copied()
    }

    /// What a name is defined as; `None` exactly where no definition of it is live.
    pub fn definition(&self, name: &[u8]) -> Option<&Definition>
        ensures { option_copied result ≡ meaning_in self.now.definitions name.now }
    {
        self.definitions.get(name)
    }

    /// The sort that a name is defined as; `None` exactly where no definition of it is live.
    pub fn defined_sort(&self, name: &[u8]) -> Option<Sort>
        ensures { result ≡ meaning_in self.now.sorts name.now }
    {
        self.sorts.get(name).copied()
    }

    /// Whether a declaration or a definition of the name is live.
    #[tactic(auto, unfolding(crate::specs::Names::is_taken))]
    pub fn is_taken(&self, name: &[u8]) -> bool
        ensures { result ≡ is_taken self.now name.now }
    {
        self.declaration(name).is_some() || self.definition(name).is_some()
    }

    /// How many levels are pushed.
    pub fn levels(&self) -> usize
        ensures { result ≡ length self.now.levels }
    {
        self.levels.len()
    }

    /// Begins so many levels.
    pub fn push(&mut self, count: u64) -> Result<(), AllocError>
        ensures ok { OnOk result (self.new ≡ pushed self.old count) }
        ensures err { OnErr result (self.new ≡ self.old) }
    {
        let level = Level {
            names: self.live.len(),
            definitions: self.definitions.len(),
            sorts: self.sorts.len(),
        };
        push_copies(&mut self.levels, level, count)
    }

    /// Ends so many levels: what was declared and defined in them is live no more. Takes no memory.
    pub fn pop(&mut self, count: u64)
        requires { count ≤ length self.old.levels }
        ensures { self.new ≡ popped self.old count }
    {
        let len = self.levels.len() - count as usize;
        if let Some(level) = self.levels.get(len) {
            let level = *level;
            self.live.truncate(level.names);
            self.numbers.truncate(level.names);
            self.definitions.truncate(level.definitions);
            self.sorts.truncate(level.sorts);
            self.levels.truncate(len);
        }
    }

    /// Ends all levels and forgets all names and definitions; the numbers of declarations go on. Takes no memory.
    pub fn reset(&mut self)
        ensures { self.new ≡ emptied self.old }
    {
        self.live.clear();
        self.numbers.clear();
        self.definitions.clear();
        self.sorts.clear();
        self.levels.clear();
    }

    /// Makes the next declaration under a name that is not live.
    pub(crate) fn add(
        &mut self,
        alloc: Global,
        name: &[u8],
        signature: Signature,
    ) -> Result<DeclId, AllocError>
        requires { declaration_of self.old.live name.now ≡ None }
        ensures ok { OnOk result (self.new ≡ with_declaration self.old name.now signature) }
        ensures number { IfOk result (λ d. d ≡ length self.old.signatures) }
        ensures err { OnErr result (self.new ≡ self.old) }
    {
        let count = self.signatures.len();
        if count >= u32::MAX as usize {
            return Err(AllocError);
        }
        let declaration = count as u32;
        let key = Vec::from_slice(alloc, name)?;
        let name = Text::from_slice(alloc, name)?;
        self.signatures.push(signature)?;
        match self.live.push(LiveName { name, declaration }) {
            Ok(()) => {}
            Err(refused) => {
                self.signatures.pop();
                return Err(AllocError::from(refused));
            }
        }
        match self.numbers.insert(key, declaration) {
            Ok(_) => Ok(declaration),
            Err(refused) => {
                self.signatures.pop();
                self.live.pop();
                Err(AllocError::from(refused))
            }
        }
    }

    /// Defines a name that no definition is live for.
    pub(crate) fn add_definition(
        &mut self,
        alloc: Global,
        name: &[u8],
        definition: Definition,
    ) -> Result<(), AllocError>
        requires { meaning_in self.old.definitions name.now ≡ None }
        ensures ok { OnOk result (self.new ≡ with_definition self.old name.now definition) }
        ensures err { OnErr result (self.new ≡ self.old) }
    {
        let key = Vec::from_slice(alloc, name)?;
        self.definitions.insert(key, definition)?;
        Ok(())
    }

    /// How many definitions of functions are live.
    pub fn definition_count(&self) -> usize
        ensures { result ≡ length self.now.definitions }
    {
        self.definitions.len()
    }

    /// Forgets the definitions behind so many. Takes no memory.
    pub fn cut_definitions(&mut self, len: usize)
        ensures { self.new ≡ with_definitions self.old len }
    {
        self.definitions.truncate(len);
    }

    /// Gives a sort a name that none has.
    pub(crate) fn add_sort(
        &mut self,
        alloc: Global,
        name: &[u8],
        sort: Sort,
    ) -> Result<(), AllocError>
        requires { meaning_in self.old.sorts name.now ≡ None }
        ensures ok { OnOk result (self.new ≡ with_sort self.old name.now sort) }
        ensures err { OnErr result (self.new ≡ self.old) }
    {
        let key = Vec::from_slice(alloc, name)?;
        self.sorts.insert(key, sort)?;
        Ok(())
    }
}
