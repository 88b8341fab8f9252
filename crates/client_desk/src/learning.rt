//! What the client at a place has seen, and learns of what others have seen.
ghost use Rattle.std.specs.Prelude.{◌≡◌, IfSome, is_some, option_map};
ghost use Rattle.client_desk.specs.Learning.{LearnsAt, sight_of};
ghost use Rattle.client_desk.specs.Places.{client_at};

use crate::mutators::Hosted;
use crate::place::Place;
use crate::sitting::Sitting;
use head_word::Mark;

impl<M: Hosted + Sync> Place<M> {
    /// What the client of the place has seen of the group, also where it has a reading open: others can learn it. Takes
    /// no memory.
    pub fn sight(&self) -> Option<Mark<M>>
        ensures sight { result ≡ option_map sight_of (client_at self.now) }
        ensures book { IfSome result (λ seen. seen.book ≡ self.now.group.group.book) }
    {
        match &self.sitting {
            Sitting::Client(client) => Some(client.mark()),
            Sitting::Reading(reader) => Some(reader.mark()),
            _ => None,
        }
    }

    /// Whether a reading of the place is open.
    pub fn reads(&self) -> bool
        ensures { result ≡ is_some self.now.reading }
    {
        match &self.sitting {
            Sitting::Reading(_) => true,
            _ => false,
        }
    }

    /// The client that sits there has then seen what the mark has, which is one of the same group. Takes no memory.
    pub fn learn(&mut self, other: &Mark<M>)
        requires { other.now.book ≡ self.old.group.group.book }
        ensures { LearnsAt self.old.client other.now self.old self.new }
    {
        if let Sitting::Client(client) = &mut self.sitting {
            client.learn(other);
        }
    }
}
