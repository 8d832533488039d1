// The names of variables and labels, kept by place and length, and the records that have them.
ghost use Rattle.std.specs.Prelude.{◌≡◌, ◌<◌, Bool, length, IfSome, Option as Optional};
ghost use Rattle.syntax.specs.declared.record.Name.{Name as NameOf};
ghost use Rattle.syntax.specs.Names.{name_in};
ghost use Rattle.reading.specs.Names.{variable_name, label_name, has_name, found};

use syntax::find::same_name;
use syntax::record::{Name, Operation, Statement, Variable};

// The bytes of a name in its text.
pub fn name_in<'t>(text: &'t [u8], name: Name) -> &'t [u8]
    ensures { result.now ≡ name_in text.now name }
{
    let start = name.place.min(text.len());
    let size = name.length.min(text.len() - start);
    &text[start..start + size]
}

// A record that may have a name.
pub trait Named: Sized {
    ghost named: { Self → Optional NameOf };

    fn declared_name(&self) -> Option<Name>
        ensures { result ≡ named self.now };
}

impl Named for Variable {
    ghost named = { variable_name };

    fn declared_name(&self) -> Option<Name> {
        Some(self.declaration().name)
    }
}

impl Named for Statement {
    ghost named = { label_name };

    fn declared_name(&self) -> Option<Name> {
        match self.operation() {
            Operation::Label(name) => Some(name),
            _ => None,
        }
    }
}

// Whether a record has the name.
fn has_name<T: Named>(text: &[u8], entry: &T, name: Name) -> bool
    ensures { result ≡ has_name T.Named.named text.now name entry.now }
{
    entry
        .declared_name()
        .is_some_and(|own| same_name(name_in(text, own), name_in(text, name)))
}

// Which of the records has the name.
pub fn find<T: Named>(text: &[u8], records: &[T], name: Name) -> Option<usize>
    ensures is { result ≡ found T.Named.named text.now name 0 records.now }
    ensures within { IfSome result (λ i. i < length records.now) }
{
    records.iter().position(|each| has_name(text, each, name))
}
