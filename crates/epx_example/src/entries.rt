//! Committed instances of a bank, as its replicas have them in memory.
ghost use Rattle.epx_types.specs.Keys.{FitsKey};

use epx_types::{Entry, Id, Key, Memory, Op};
use std::alloc::Global;

/// The key of an account.
fn key(alloc: Global, text: &str) -> Result<Key, Memory>
    requires { FitsKey text.now }
{
    Ok(Key::new(alloc, text)?.unwrap())
}

/// Instance 1 of replica 0: 50 are paid into an account.
fn deposit(alloc: Global) -> Result<Entry, Memory> {
    let id = Id {
        replica: 0,
        number: 1,
    };
    let alice = key(alloc, "alice")?;
    let ops = vec![in alloc;
        Op::Put {
            key: alice,
            value: 50
        },
    ]?;
    Ok(Entry::new(id, 1, Vec::new(alloc), ops).unwrap())
}

/// Instance 1 of replica 1: 20 of these move to another account.
fn transfer(alloc: Global) -> Result<Entry, Memory> {
    let id = Id {
        replica: 1,
        number: 1,
    };
    let deps = vec![in alloc;
        Id {
            replica: 0,
            number: 1
        },
    ]?;
    let alice = key(alloc, "alice")?;
    let bob = key(alloc, "bob")?;
    let ops = vec![in alloc;
        Op::Add {
            key: alice,
            amount: -20
        },
        Op::Add {
            key: bob,
            amount: 20
        },
    ]?;
    Ok(Entry::new(id, 2, deps, ops).unwrap())
}

/// Instance 2 of replica 1: 5 more are paid into the other account.
fn payment(alloc: Global) -> Result<Entry, Memory> {
    let id = Id {
        replica: 1,
        number: 2,
    };
    let deps = vec![in alloc;
        Id {
            replica: 1,
            number: 1
        },
    ]?;
    let bob = key(alloc, "bob")?;
    let ops = vec![in alloc;
        Op::Add {
            key: bob,
            amount: 5
        },
    ]?;
    Ok(Entry::new(id, 3, deps, ops).unwrap())
}

/// Instance 1 of replica 2: the other account is read, after the payment.
fn balance(alloc: Global) -> Result<Entry, Memory> {
    let id = Id {
        replica: 2,
        number: 1,
    };
    let deps = vec![in alloc;
        Id {
            replica: 1,
            number: 2
        },
    ]?;
    let bob = key(alloc, "bob")?;
    let ops = vec![in alloc; Op::Get { key: bob }]?;
    Ok(Entry::new(id, 4, deps, ops).unwrap())
}

/// What is committed at first, in any order. The payment is not, so the balance waits for it.
pub(crate) fn first_entries(alloc: Global) -> Result<Vec<Entry>, Memory> {
    let mut entries = Vec::new(alloc);
    entries.push(balance(alloc)?)?;
    entries.push(transfer(alloc)?)?;
    entries.push(deposit(alloc)?)?;
    Ok(entries)
}

/// What the next run needs: what is new, and what waited.
pub(crate) fn later_entries(alloc: Global) -> Result<Vec<Entry>, Memory> {
    let mut entries = Vec::new(alloc);
    entries.push(balance(alloc)?)?;
    entries.push(payment(alloc)?)?;
    Ok(entries)
}
