ghost use Rattle.std.specs.Prelude.{◌≡◌, IfOk, true, length};
ghost use Rattle.letters.specs.Refusals.{as_answer};
ghost use Rattle.seats.specs.Outcomes.{PostLogs, good_docket, post_answer};
ghost use Rattle.rooms.specs.Calls.{post_room};
ghost use Rattle.rooms.specs.States.{id_of, state};

use crate::docket::Docket;
use crate::room::Room;
use letters::body::Body;
use letters::letter::Letter;
use letters::parts::Parts;
use letters::refusal::Refusal;
use seats::docket_id::DocketId;
use seats::parts::put;
use seats::seat::DocketEvent;

impl Room {
    // Posts a letter with the next clock of its seat, adds it at the foot of the seat's log and answers its docket.
    // Refused with 5, 8, 10, 9.
    pub fn post<B: Body>(
        &mut self,
        logs: &mut [Letter<B>],
        holds: &[Letter<B>],
        seat: u8,
        body: B,
    ) -> Result<Docket, Refusal>
        ensures answer { as_answer id_of result ≡ post_answer (state self.old) (length logs.old) (length holds.now) seat }
        ensures room { state self.new ≡ post_room (state self.old) (post_answer (state self.old) (length logs.old) (length holds.now) seat) seat }
        ensures logs { PostLogs (state self.old) (post_answer (state self.old) (length logs.old) (length holds.now) seat) seat body logs.old logs.new }
        ensures good { IfOk result (λ docket. good_docket (state self.new) (id_of docket) ≡ true) }
    {
        Ok(Docket::of(self.post_for_id(logs, holds, seat, body)?))
    }

    // The same, by the numbers of the docket: nobody has the docket yet.
    pub(crate) fn post_for_id<B: Body>(
        &mut self,
        logs: &mut [Letter<B>],
        holds: &[Letter<B>],
        seat: u8,
        body: B,
    ) -> Result<DocketId, Refusal>
        ensures answer { as_answer (λ docket_id. docket_id) result ≡ post_answer (state self.old) (length logs.old) (length holds.now) seat }
        ensures room { state self.new ≡ post_room (state self.old) (post_answer (state self.old) (length logs.old) (length holds.now) seat) seat }
        ensures logs { PostLogs (state self.old) (post_answer (state self.old) (length logs.old) (length holds.now) seat) seat body logs.old logs.new }
    {
        self.check_tables_and_seat(logs.len(), holds.len(), seat)?;
        let mut poster = self.seats[seat as usize];
        let foot = self.foot(seat, &poster);
        if !poster.move_docket(DocketEvent::Post) {
            return Err(Refusal::DocketTaken);
        }
        if !poster.raise(seat, self.terms.quota) {
            return Err(Refusal::QuotaSpent);
        }
        let parts = Parts {
            stamp: poster.clock,
            poster: seat,
            body,
        };
        put(logs, foot, Letter::make(parts));
        self.store_seat(seat, poster);
        Ok(self.newest_docket(seat, &poster))
    }
}
