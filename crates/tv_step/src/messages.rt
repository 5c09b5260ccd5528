//! The values of messages, in a step.

ghost use Rattle.std.specs.Prelude.{◌≡◌, map, All, IfOk};
ghost use Rattle.tv_model.specs.Form.{form_of};
ghost use Rattle.tv_model.specs.Program.{message_of};
ghost use Rattle.tv_model.specs.Valid.{IsMessage};
ghost use Rattle.tv_step_laws.specs.Shaped.{IsShaped};
ghost use Rattle.tv_step_laws.specs.Transfer.{message_value};
ghost use Rattle.tv_step.specs.Setting.{form_in, IsReadyToStep};
ghost use Rattle.tv_step.specs.Steps.{HasRoomFor};

use crate::setting::Setting;
use std::alloc::AllocError;
use tv_eval::{Assignment, Scratch, eval};
use tv_kleene::K3;
use tv_model::{Items, Message};
use tv_struct::Structure;

/// Values of messages.
pub type Values = Items<K3>;

/// The greatest value of the message's condition in the structures.
fn value_of(x: &Setting, message: &Message, at_hand: &[Structure], scratch: &mut Scratch) -> K3
    requires ready { IsReadyToStep x.now scratch.old }
    requires message { IsMessage (form_in x.now) (message_of message.now) }
    requires room { HasRoomFor (form_in x.now) (form_of message.now.cond) }
    requires shaped { All (IsShaped (form_in x.now)) at_hand.now }
    ensures value { result ≡ message_value at_hand.now (message_of message.now) }
    ensures scratch { scratch.new ≡ scratch.old }
{
    let nobody = Assignment::new();
    let mut value = K3::No;
    for s in at_hand {
        let _ = s.size();
        value = value.or(eval(&message.cond, s, &nobody, scratch));
    }
    value
}

/// The values of all these messages.
pub fn values_of(
    x: &Setting,
    messages: &[Message],
    at_hand: &[Structure],
    scratch: &mut Scratch,
) -> Result<Values, AllocError>
    requires ready { IsReadyToStep x.now scratch.old }
    requires messages { All (λ m. IsMessage (form_in x.now) (message_of m)) messages.now }
    requires room { All (λ m. HasRoomFor (form_in x.now) (form_of m.cond)) messages.now }
    requires shaped { All (IsShaped (form_in x.now)) at_hand.now }
    ensures values { IfOk result
        (λ values. values ≡ map (message_value at_hand.now) (map message_of messages.now)) }
    ensures scratch { scratch.new ≡ scratch.old }
{
    let mut values = Items::new(x.alloc);
    for message in messages {
        values.push(value_of(x, message, at_hand, scratch))?;
    }
    Ok(values)
}
