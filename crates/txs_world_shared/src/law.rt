//! Laws of the state that actors share. Each is the contract of a function of its own, which does nothing when it runs.

ghost use Rattle.txs_world_shared.specs.Laws.{UntouchedStands, ServesStand};

use txs_world::law::serve_keeps;

/// Where nothing was done yet, the books are legal.
pub fn untouched_stands()
    ensures { UntouchedStands }
{}

/// After any number of lawful asks each book is legal, the commits are undisturbed, and each action that is taken waits.
pub fn serves_stand()
    ensures { ServesStand }
{
    serve_keeps();
}
