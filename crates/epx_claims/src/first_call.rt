//! What a thread does before it draws pieces.
ghost use Rattle.std.specs.Prelude.{◌≡◌};

/// Work that is done once. What a join says of a closure says nothing of a `&mut` that the closure
/// holds, so its closures hold a value of this trait.
pub(crate) trait FirstCall {
    type Output;

    ghost can_run: { Self → Type 0 };

    ghost run_gives: { Self → Self.Output → Type 0 };

    /// Does the work. It takes the value, so the work is done at most once.
    fn run(self) -> Self::Output
        requires { can_run self }
        ensures { run_gives self result };
}

/// A call of a closure that is lent. Its lender learns what the call leaves in its captures.
#[derive(Drop)]
pub(crate) struct LentClosure<'a, F> {
    pub(crate) f: &'a mut F,
}

impl<'a, F: FnMut() -> A, A> FirstCall for LentClosure<'a, F> {
    type Output = (&'a mut F, A);

    ghost can_run = { λ t. F.pre t.f.now };

    ghost run_gives = { λ t r. (r.0.ghost_name ≡ t.f.ghost_name) × F.step t.f.now r.1 r.0.now };

    fn run(self) -> (&'a mut F, A) {
        let LentClosure { f } = self;
        let a = f();
        (f, a)
    }
}

/// Does nothing. This use of a returned reference ties it, for the borrow checker, to the one that
/// was lent.
pub(crate) fn tie_loan<T>(x: &mut T)
    ensures { x.new ≡ x.old }
{}
