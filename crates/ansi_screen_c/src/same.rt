//! Whether two screens show the same, and a copy of a screen, for C.
ghost use Rattle.std.specs.Prelude.{◌≡◌, None, IfSome, Decides};
ghost use Rattle.std.specs.Bool.{OnTrue, OnFalse};
ghost use Rattle.ansi_screen_c.specs.Calls.{Both, ShowSameOf};
ghost use Rattle.screen_pieces.specs.Terminal.{IsCopy};

use crate::handle::Handle;
use screen_pieces::Terminal;
use std::alloc::Global;

/// Answers whether both screens show the same: as many columns and rows, the same cells, the cursor, with the style of
/// what comes next, and modes. It answers false where one of them is not held.
#[unsafe(no_mangle)]
pub extern "C" fn ansi_screen_equal(alloc: Global, one: &mut Handle, other: &mut Handle) -> bool
    ensures same { Decides result (Both ShowSameOf one.old.value other.old.value) }
    ensures one_kept { one.new.value ≡ one.old.value }
    ensures other_kept { other.new.value ≡ other.old.value }
{
    match one.take(alloc) {
        None => false,
        Some(first) => match other.take(alloc) {
            None => {
                one.put(first);
                false
            }
            Some(second) => {
                let is_same = first.shows_same(&second);
                one.put(first);
                other.put(second);
                is_same
            }
        },
    }
}

/// A copy on the heap.
fn copied(alloc: Global, terminal: &Terminal) -> Option<Box<Terminal>>
    ensures { IfSome result (λ held. IsCopy terminal.now held.value) }
{
    let Ok(copy) = terminal.copy(alloc) else {
        return None;
    };
    let Ok(held) = Box::new(alloc, copy) else {
        return None;
    };
    Some(held)
}

/// Holds a copy of a screen, in place of what it held, which is freed: it stands where that one stands, in all that it
/// shows and keeps. It answers false, and holds none, where no screen is held that is copied, or memory is wanting.
#[unsafe(no_mangle)]
pub extern "C" fn ansi_screen_copy(alloc: Global, copy: &mut Handle, screen: &mut Handle) -> bool
    ensures copied { OnTrue result (Both IsCopy screen.old.value copy.new.value) }
    ensures none { OnFalse result (copy.new.value ≡ None) }
    ensures kept { screen.new.value ≡ screen.old.value }
{
    drop(copy.take(alloc));
    match screen.take(alloc) {
        None => false,
        Some(held) => {
            let made = copied(alloc, &held);
            screen.put(held);
            match made {
                None => false,
                Some(made) => {
                    copy.put(made);
                    true
                }
            }
        }
    }
}
