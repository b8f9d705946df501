//! A path, by its components.
ghost use Rattle.std.specs.Prelude.{◌≡◌, ◌<◌, ◌==◌, [], ◌∷◌, ◌++◌, length, not, IsTrue, IfOk, OnOk, OnErr, Some, None, IsErrOf};
ghost use Rattle.bf_paths.specs.Components.{is_component, is_name_byte, is_path, is_dots, path_text, path_of};
ghost use Rattle.std.specs.List.{list_all};
ghost use Rattle.bf_paths.specs.declared.parts.PathFault.TheVariants as faults;

use bf_io::Bytes;
use std::alloc::{AllocError, AllocFailed, Global};
use std::marker::Model;
use thiserror::Error;

/// Why a text gave no path.
#[derive(Clone, Copy, Debug, PartialEq, Eq, Error)]
pub enum PathFault {
    /// The text is no path.
    #[error("the text is no path")]
    Bad,
    /// Memory ran out.
    #[error("out of memory")]
    NoMemory,
}

impl From<AllocError> for PathFault {
    ghost from_gives = { λ _ e. e ≡ faults.NoMemory };

    fn from(_: AllocError) -> PathFault {
        PathFault::NoMemory
    }
}

impl<T: Drop> From<AllocFailed<T>> for PathFault {
    ghost from_gives = { λ _ e. e ≡ faults.NoMemory };

    fn from(_: AllocFailed<T>) -> PathFault {
        PathFault::NoMemory
    }
}

/// The path of a file: one component or more, none of them empty, `.` or `..`, and none with NUL or
/// with the slash.
#[derive(Debug, Drop)]
pub struct Path {
    alloc: Global,
    components: Vec<Bytes>,
}

impl Model for Path {
    ghost use Rattle.std.specs.Prelude.{List, ℕ, IsTrue};
    ghost use Rattle.bf_paths.specs.Components.{is_path};

    ghost Value = { List (List ℕ) };

    ghost view = { λ p. p.components.items };

    ghost invariant = { λ p. IsTrue (is_path p.components.items) };
}

impl Path {
    /// The path of these components, which are taken as they are.
    pub fn from_components(alloc: Global, components: Vec<Bytes>) -> Path
        requires { IsTrue (is_path components.items) }
        ensures { result ≡ components.items }
    {
        Path { alloc, components }
    }

    /// The components in order.
    pub fn components(&self) -> &[Bytes]
        ensures value { result.now ≡ self.now }
        ensures path { IsTrue (is_path self.now) }
    {
        self.components.as_slice()
    }

    /// The allocator that the path keeps.
    pub fn allocator(&self) -> Global {
        self.alloc
    }

    /// A copy of the path.
    pub fn try_clone(&self) -> Result<Path, AllocError>
        ensures { IfOk result (λ copy. copy ≡ self.now) }
    {
        let components = copy_names(self.alloc, self.components.as_slice())?;
        Ok(Path {
            alloc: self.alloc,
            components,
        })
    }

    /// The components, joined by slashes.
    pub fn to_bytes(&self) -> Result<Bytes, AllocError>
        ensures { IfOk result (λ text. text ≡ path_text self.now) }
    {
        let mut text = Bytes::new(self.alloc);
        for (place, component) in self.components.iter().enumerate() {
            push_component(&mut text, place, component.as_slice())?;
        }
        Ok(text)
    }
}

/// Adds the component at a place of a path, behind a slash where it is not the first.
fn push_component(text: &mut Bytes, place: usize, component: &[u8]) -> Result<(), AllocError>
    ensures first { OnOk result (place ≡ 0 → text.new ≡ text.old ++ component.now) }
    ensures later { OnOk result (0 < place → text.new ≡ text.old ++ 47 ∷ component.now) }
{
    if place > 0 {
        text.push(b'/')?;
    }
    text.append(component)
}

/// Copies of names, in order.
pub(crate) fn copy_names(alloc: Global, names: &[Bytes]) -> Result<Vec<Bytes>, AllocError>
    ensures { IfOk result (λ copies. copies.items ≡ names.now) }
{
    let mut copies = Vec::new(alloc);
    for name in names {
        copies.push(name.try_clone()?)?;
    }
    Ok(copies)
}

/// Whether a name may be a component.
pub(crate) fn is_component(name: &[u8]) -> bool
    ensures { result ≡ is_component name.now }
{
    are_name_bytes(name) && !is_dots(name)
}

/// Whether no byte is NUL or the slash.
fn are_name_bytes(name: &[u8]) -> bool
    ensures { result ≡ list_all is_name_byte name.now }
{
    for byte in name {
        if *byte == 0 || *byte == b'/' {
            return false;
        }
    }
    true
}

/// Whether a name is empty, `.` or `..`.
fn is_dots(name: &[u8]) -> bool
    ensures { result ≡ is_dots name.now }
{
    name.len() <= 2 && name.iter().all(|byte| *byte == b'.')
}

/// The path whose components stand between the slashes of a text.
pub(crate) fn split_path(alloc: Global, text: &[u8]) -> Result<Path, PathFault>
    ensures ok { IfOk result (λ path. path_of text.now ≡ Some path) }
    ensures bad { IsErrOf result PathFault.Bad → path_of text.now ≡ None }
{
    let mut components = Vec::new(alloc);
    for name in text.split(|byte| *byte == b'/') {
        if !is_component(name) {
            return Err(PathFault::Bad);
        }
        components.push(Bytes::from_slice(alloc, name)?)?;
    }
    Ok(Path { alloc, components })
}
