// A session: a library, once there is a plan, and the commands that it obeys.
ghost use Rattle.pick.specs.Commands.{heard};
ghost use Rattle.pick.specs.Sessions.{Asks, Bars, Begins, Cuts, Lists, Obeys};

use crate::command::Command;
use crate::library::Library;
use crate::refusal::{Refusal, Trouble};
use crate::reply::Reply;
use std::alloc::Global;

#[derive(Default, Drop)]
pub struct Session {
    library: Option<Library>,
}

impl Session {
    // Starts an empty library, in the place of the one that is there.
    fn begin(&mut self, heap: Global, sizes: Vec<u8>) -> Result<Reply, Trouble>
        ensures { Begins sizes.items self.old self.new result }
    {
        let dimensions = sizes.len();
        let library = Library::begin(heap, sizes).map_err(Refusal::Plan)?;
        self.library = Some(library);
        Ok(Reply::Begun(dimensions))
    }

    fn list(&mut self, number: u32, letters: Vec<u8>) -> Result<Reply, Trouble>
        ensures { Lists number letters.items self.old self.new result }
    {
        let library = self.library.as_mut().ok_or(Refusal::NoPlan)?;
        library.list(number, letters)?;
        Ok(Reply::Listed(number))
    }

    fn bar(&mut self, dimension: u32, letter: u8) -> Result<Reply, Trouble>
        ensures { Bars dimension letter self.old self.new result }
    {
        let library = self.library.as_mut().ok_or(Refusal::NoPlan)?;
        library.bar(dimension, letter)?;
        Ok(Reply::Barred(dimension, letter))
    }

    fn cut_off(&mut self, limit: u32) -> Result<Reply, Trouble>
        ensures { Cuts limit self.old self.new result }
    {
        let library = self.library.as_mut().ok_or(Refusal::NoPlan)?;
        library.cut_off(limit);
        Ok(Reply::CutOff(limit))
    }

    fn ask(&self, heap: Global, count: u32, query: Vec<u8>) -> Result<Reply, Trouble>
        ensures { Asks count query.items self.now result }
    {
        let library = self.library.as_ref().ok_or(Refusal::NoPlan)?;
        Ok(Reply::Found(library.ask(heap, count, query)?))
    }

    // Obeys a command. Without a plan, each but a plan is refused; and a command that is refused changes nothing.
    pub fn obey(&mut self, heap: Global, command: Command) -> Result<Reply, Trouble>
        ensures { Obeys (heard command) self.old self.new result }
    {
        match command {
            Command::Plan(sizes) => self.begin(heap, sizes),
            Command::List(number, letters) => self.list(number, letters),
            Command::Bar(dimension, letter) => self.bar(dimension, letter),
            Command::CutOff(limit) => self.cut_off(limit),
            Command::Nearest(count, query) => self.ask(heap, count, query),
        }
    }
}
