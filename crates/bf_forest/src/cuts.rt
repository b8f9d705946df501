//! Edits as a directory sees them: by what is left of their paths.
ghost use Rattle.std.specs.Prelude.{◌≡◌, ◌<◌, [], ◌∷◌, ◌++◌, length, IsTrue, IfOk, OnOk};
ghost use Rattle.bf_forest.specs.Cuts.{path_in, with_path, inside};
ghost use Rattle.bf_forest.specs.Slots.{has_path};

use crate::edits::Edit;
use bf_io::Bytes;
use std::alloc::{AllocError, Global};
use std::marker::Model;

/// An edit with what is left of its path, so that no path is copied.
#[derive(Debug, Drop)]
pub(crate) struct LocalEdit<'a> {
    edit: &'a Edit,
    path: &'a [Bytes],
}

impl<'a> Model for LocalEdit<'a> {
    ghost use Rattle.bf_forest.specs.declared.edits.Edit.{Edit};
    ghost use Rattle.bf_forest.specs.Cuts.{with_path, IsCut};

    ghost Value = { Edit };

    ghost view = { λ c. with_path c.edit.now c.path.now };

    ghost invariant = { λ c. IsCut c.edit.now c.path.now };
}

impl<'a> LocalEdit<'a> {
    /// An edit as a whole.
    fn whole(edit: &'a Edit) -> LocalEdit<'a>
        ensures { result ≡ edit.now }
    {
        let path = match edit {
            Edit::Set { path, .. } => path.components(),
            Edit::Remove { path } => path.components(),
            Edit::Clear => &[],
        };
        LocalEdit { edit, path }
    }

    /// The edit whose path is cut.
    pub(crate) fn edit(&self) -> &'a Edit
        ensures cut { self.now ≡ with_path result.now (path_in self.now) }
        ensures valid { IsTrue (has_path self.now) }
    {
        self.edit
    }

    /// The components that are left.
    pub(crate) fn path(&self) -> &'a [Bytes]
        ensures { result.now ≡ path_in self.now }
    {
        self.path
    }

    /// The edit as the directory sees it that is the first on its path.
    pub(crate) fn inside(&self) -> LocalEdit<'a>
        requires { 1 < length (path_in self.now) }
        ensures { result ≡ inside self.now }
    {
        LocalEdit {
            edit: self.edit,
            path: &self.path[1..],
        }
    }
}

/// Edits that wait to be made, in order.
#[derive(Debug, Drop)]
pub(crate) struct Pending<'a> {
    edits: Vec<LocalEdit<'a>>,
}

impl<'a> Model for Pending<'a> {
    ghost use Rattle.std.specs.Prelude.{List};
    ghost use Rattle.bf_forest.specs.declared.edits.Edit.{Edit};

    ghost Value = { List Edit };

    ghost view = { λ p. p.edits.items };
}

impl<'a> Pending<'a> {
    /// No edit. It takes no memory.
    pub(crate) fn new(alloc: Global) -> Pending<'a>
        ensures { result ≡ [] }
    {
        Pending {
            edits: Vec::new(alloc),
        }
    }

    /// Edits as they are given.
    pub(crate) fn of(alloc: Global, edits: &'a [Edit]) -> Result<Pending<'a>, AllocError>
        ensures { IfOk result (λ pending. pending ≡ edits.now) }
    {
        let mut pending = Pending::new(alloc);
        for edit in edits {
            pending.push(LocalEdit::whole(edit))?;
        }
        Ok(pending)
    }

    /// The edits in order.
    pub(crate) fn as_slice(&self) -> &[LocalEdit<'a>]
        ensures { result.now ≡ self.now }
    {
        self.edits.as_slice()
    }

    /// Adds an edit behind the others.
    pub(crate) fn push(&mut self, edit: LocalEdit<'a>) -> Result<(), AllocError>
        ensures { OnOk result (self.new ≡ self.old ++ edit.entry ∷ []) }
    {
        self.edits.push(edit)?;
        Ok(())
    }
}
