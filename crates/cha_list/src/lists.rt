//! A list that grows, seen by contracts as the list of its items.

ghost use Rattle.std.specs.Prelude.{◌≡◌, ◌<◌, [], ◌∷◌, ◌++◌, decimal, OnOk, OnErr, IfOk, IfErr, IfSome, IfNone};

use crate::memory::NoMemory;
use std::alloc::Global;
use std::marker::Model;

/// A list of items in order. It takes memory only as it grows.
#[derive(Drop)]
pub struct Listed<T> {
    kept: Vec<T>,
}

/// A list of bytes.
pub type Text = Listed<u8>;

impl<T> Model for Listed<T> {
    ghost use Rattle.std.specs.Prelude.{List};

    ghost Value = { List T };

    ghost view = { λ s. s.kept.items };
}

impl<T> Listed<T> {
    /// The empty list. It takes no memory.
    pub fn new(alloc: Global) -> Self
        ensures { result ≡ [] }
    {
        Listed {
            kept: Vec::new(alloc),
        }
    }

    /// Appends an item. On a refusal the item comes back, and the list is unchanged.
    pub fn push(&mut self, item: T) -> Result<(), (T, NoMemory)>
        ensures ok { OnOk result (self.new ≡ self.old ++ item ∷ []) }
        ensures err { OnErr result (self.new ≡ self.old) }
        ensures item_returned { IfErr result (λ refused. refused.0 ≡ item) }
    {
        match self.kept.push(item) {
            Ok(()) => Ok(()),
            Err(refused) => Err((refused.value, NoMemory)),
        }
    }

    /// Takes the last item off. `None` where the list is empty.
    pub fn pop(&mut self) -> Option<T>
        ensures some { IfSome result (λ item. self.old ≡ self.new ++ item ∷ []) }
        ensures none { IfNone result ((self.old ≡ []) × (self.new ≡ [])) }
    {
        self.kept.pop()
    }

    /// The items, in order.
    pub fn items(&self) -> &[T]
        ensures { result.now ≡ self.now }
    {
        self.kept.as_slice()
    }

    /// The list of the elements of a vector. It takes no memory.
    pub fn from_vec(kept: Vec<T>) -> Self
        ensures { result ≡ kept.items }
    {
        Listed { kept }
    }

    /// The items as a vector. It takes no memory.
    pub fn into_vec(self) -> Vec<T>
        ensures { result.items ≡ self }
    {
        let Listed { kept } = self;
        kept
    }
}

impl Listed<u8> {
    /// Appends bytes. On a refusal the text is unchanged.
    pub fn append(&mut self, bytes: &[u8]) -> Result<(), NoMemory>
        ensures ok { OnOk result (self.new ≡ self.old ++ bytes.now) }
        ensures err { OnErr result (self.new ≡ self.old) }
    {
        match self.kept.extend_from_slice(bytes) {
            Ok(()) => Ok(()),
            Err(_) => Err(NoMemory),
        }
    }

    /// Appends a number in decimal digits. On a refusal the text is unchanged.
    pub fn append_decimal(&mut self, alloc: Global, number: u64) -> Result<(), NoMemory>
        ensures ok { OnOk result (self.new ≡ self.old ++ decimal number) }
        ensures err { OnErr result (self.new ≡ self.old) }
    {
        let digits = format!(in alloc; "{number}")?;
        self.append(digits.as_bytes())
    }
}

/// A text of these bytes.
pub fn text_of(alloc: Global, bytes: &[u8]) -> Result<Text, NoMemory>
    ensures { IfOk result (λ text. text ≡ bytes.now) }
{
    let mut text = Text::new(alloc);
    text.append(bytes)?;
    Ok(text)
}
