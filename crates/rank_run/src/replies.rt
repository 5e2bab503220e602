//! The replies of all processes.
ghost use Rattle.std.specs.Prelude.{◌≡◌, ◌<◌, [], length, map, vec_items, slice_index_or};

use hall_core::Reply;
use std::marker::Model;

/// For each process, from 0, the replies that it got, in order. Contracts see a list for each
/// process.
#[derive(Drop)]
pub struct RunReplies {
    replies: Vec<Vec<Reply>>,
}

impl Model for RunReplies {
    ghost use Rattle.std.specs.Prelude.{List, map, vec_items};
    ghost use Rattle.run_model.specs.declared.reply.Reply.{Reply};

    ghost Value = { List (List Reply) };

    ghost view = { λ r. map vec_items r.replies.items };
}

impl From<Vec<Vec<Reply>>> for RunReplies {
    ghost from_gives = { λ replies result. result ≡ map vec_items replies.items };

    fn from(replies: Vec<Vec<Reply>>) -> RunReplies {
        RunReplies { replies }
    }
}

impl RunReplies {
    /// How many processes there are.
    pub fn len(&self) -> usize
        ensures { result ≡ length self.now }
    {
        self.replies.len()
    }

    /// The replies of a process, in order.
    pub fn of(&self, process: usize) -> &[Reply]
        requires { process < length self.now }
        ensures { result.now ≡ slice_index_or self.now process [] }
    {
        &self.replies[process]
    }

    /// The vectors that it was made from, or ones like them. Takes no memory.
    pub fn into_vecs(self) -> Vec<Vec<Reply>>
        ensures { map vec_items result.items ≡ self }
    {
        let RunReplies { replies } = self;
        replies
    }
}
