//! Requests that stand in memory, and a new office there: the premises of what [`answer`] promises
//! are met.
ghost use Rattle.std.specs.Prelude.{◌≡◌, ℕ, List, [], Some, IfOk};
ghost use Rattle.gr_core.specs.Desks.State.{new_state};
ghost use Rattle.gr_http.specs.Reads.{AreNeeded};
ghost use Rattle.gr_http.specs.Request.{HasRequest};
ghost use Rattle.gr_http.specs.Response.{Response, response_bytes};
ghost use Rattle.gr_http.specs.Answer.{Responds};

use crate::answer::{Lost, Served, answer};
use crate::input::Input;
use crate::memory_input::MemoryInput;
use crate::output::ToWrite;
use crate::route::Routes;
use gr_office::laws::new_office_in_memory;
use gr_office::{Fault, Office};
use sqlite::MemStore;
use std::alloc::Global;

/// What became of a request in memory.
#[derive(Drop)]
pub struct Answered<'a> {
    /// The office after it.
    pub office: Office<MemStore>,

    /// The request, as far as it was read, with what each read brought.
    pub input: MemoryInput<'a>,

    /// Whether it was answered.
    pub served: Result<Served, Lost>,

    /// What was written.
    pub written: Vec<u8>,
}

/// What [`answer`] promises is said of a request that stands in memory and tells of its reads, of a
/// response that goes into a `Vec`, and of a new office in memory. All these are there, so no
/// promise is empty: the bytes that were written are those of the response to these bytes, and each
/// read was needed. After so many reads a further one fails.
///
/// [`Fault::Memory`] and [`Fault::Store`]: there was no memory for the office, the routes or what
/// the reads bring.
pub fn answered_in_memory<'a>(
    alloc: Global,
    at: u64,
    request: &'a [u8],
    reads: usize,
) -> Result<Answered<'a>, Fault>
    ensures served { IfOk result (λ answered. IfOk answered.served (λ served.
        (response : Response) × (served.status ≡ response.status)
        × (answered.written.items ≡ response_bytes response)
        × Responds (Some new_state) at request.now response answered.office.desk)) }
    ensures needed { IfOk result (λ answered. (calls : List (List ℕ))
        × (⟦<MemoryInput<'a> as Input>⟧.taken answered.input ≡ Some calls)
        × AreNeeded HasRequest [] calls) }
{
    let mut office = new_office_in_memory(alloc)?;
    let Ok(routes) = Routes::new(alloc) else {
        return Err(Fault::Memory);
    };
    let mut input = MemoryInput::new(alloc, request, reads)?;
    let mut output = ToWrite::new(Vec::new(alloc));
    let served = answer(alloc, &routes, &mut office, at, &mut input, &mut output);
    Ok(Answered {
        office,
        input,
        served,
        written: output.into_inner(),
    })
}
