//! The branches of conditionals that enclose a line.
ghost use Rattle.std.specs.Prelude.{◌≡◌, ◌∷◌, [], OnOk, IfSome, IfNone, Some, None, IsErrOf};
ghost use Rattle.std.specs.Bool.{OnTrue, OnFalse};
ghost use Rattle.asl_directives.specs.Branches as spec;

use std::alloc::{AllocError, Global};
use std::marker::Model;

/// An open `#if`: where it stands, whether one of its branches was taken or none may be, whether the branch that
/// is open is read, and whether that is its `#else`.
#[derive(Clone, Copy, Debug, PartialEq, Eq, Drop)]
pub struct Branch {
    pub line: u32,
    pub column: u32,
    pub taken: bool,
    pub now: bool,
    pub last: bool,
}

/// The branches that enclose a line. Contracts see them as a list with the innermost first.
#[derive(Drop)]
pub struct Branches {
    open: Vec<Branch>,
    unread: usize,
}

impl Model for Branches {
    ghost use Rattle.std.specs.Prelude.{◌≡◌, List, reverse};
    ghost use Rattle.asl_directives.specs.declared.branches.Branch.{Branch};
    ghost use Rattle.asl_directives.specs.Branches.{unread_count};

    ghost Value = { List Branch };

    ghost view = { λ branches. reverse branches.open.items };

    ghost invariant = { λ branches. branches.unread ≡ unread_count branches.open.items };
}

/// Why a directive is not obeyed.
#[derive(Clone, Copy, Debug, PartialEq, Eq, Drop)]
pub enum BranchFault {
    /// No `#if` is open, or its `#else` has come.
    Unbalanced,
    /// There was no memory.
    Memory,
}

impl From<AllocError> for BranchFault {
    ghost use Rattle.asl_directives.specs.declared.branches.BranchFault.TheVariants.{Memory};

    ghost from_gives = { λ _ e. e ≡ Memory };

    fn from(_: AllocError) -> Self {
        BranchFault::Memory
    }
}

impl Branches {
    /// No branch.
    pub fn new(alloc: Global) -> Self
        ensures { result ≡ [] }
    {
        Branches {
            open: Vec::new(alloc),
            unread: 0,
        }
    }

    fn push(&mut self, branch: Branch) -> Result<(), AllocError>
        ensures { OnOk result (self.new ≡ branch ∷ self.old) }
    {
        self.open.push(branch)?;
        if !branch.now {
            self.unread += 1;
        }
        Ok(())
    }

    fn pop(&mut self) -> Option<Branch>
        ensures some { IfSome result (λ branch. self.old ≡ branch ∷ self.new) }
        ensures none { IfNone result (self.old ≡ []) }
        ensures still { IfNone result (self.new ≡ []) }
    {
        let branch = self.open.pop()?;
        if !branch.now {
            self.unread -= 1;
        }
        Some(branch)
    }

    /// Whether a line is read: where each branch around it is.
    pub fn is_read(&self) -> bool
        ensures { result ≡ spec.is_read self.now }
    {
        self.unread == 0
    }

    /// The outermost open `#if`.
    pub fn outermost(&self) -> Option<Branch>
        ensures { result ≡ spec.outermost self.now }
    {
        self.open.first().copied()
    }

    /// Opens the branch of an `#if` at this line and column, whose condition has this value.
    pub fn open(&mut self, line: u32, column: u32, value: bool) -> Result<(), AllocError>
        ensures { OnOk result (self.new ≡ spec.opened line column value self.old) }
    {
        let read = self.is_read();
        self.push(Branch {
            line,
            column,
            taken: !read || value,
            now: read && value,
            last: false,
        })
    }

    /// Whether an `#elif` asks for the value of its condition. None where it does not balance.
    pub fn asks(&self) -> Option<bool>
        ensures { result ≡ spec.asks self.now }
    {
        let branch = self.open.last()?;
        if branch.last {
            None
        } else {
            Some(!branch.taken)
        }
    }

    /// Turns to the branch of an `#elif`, whose condition has this value.
    pub fn else_if(&mut self, value: bool) -> Result<(), AllocError>
        ensures { OnOk result (self.new ≡ spec.at_else_if value self.old) }
    {
        let Some(branch) = self.pop() else {
            return Ok(());
        };
        self.push(Branch {
            line: branch.line,
            column: branch.column,
            taken: branch.taken || value,
            now: !branch.taken && value,
            last: branch.last,
        })
    }

    /// Turns to the branch of an `#else`.
    pub fn else_(&mut self) -> Result<(), BranchFault>
        ensures done { OnOk result (spec.at_else self.old ≡ Some self.new) }
        ensures refused { IsErrOf result BranchFault.Unbalanced → spec.at_else self.old ≡ None }
    {
        let Some(branch) = self.pop() else {
            return Err(BranchFault::Unbalanced);
        };
        if branch.last {
            return Err(BranchFault::Unbalanced);
        }
        self.push(Branch {
            line: branch.line,
            column: branch.column,
            taken: true,
            now: !branch.taken,
            last: true,
        })?;
        Ok(())
    }

    /// Closes the branch of the innermost `#if`; false where none is open.
    pub fn end_if(&mut self) -> bool
        ensures closed { OnTrue result (spec.at_end_if self.old ≡ Some self.new) }
        ensures none { OnFalse result (spec.at_end_if self.old ≡ None) }
    {
        self.pop().is_some()
    }
}
