//! Laws of the rule, over definitions alone.

ghost use Rattle.history.specs.History.{Stepped};
ghost use Rattle.desk_rule.specs.Free.{FreeTurnIsGot, FreeWordIsPlace};
ghost use Rattle.desk_rule.specs.Laws.{BitsAreOwed, HistoriesAgree, NoticesAgree, NoticesBalance};
ghost use Rattle.desk_rule.specs.Laws.{OneSeatHolds, PostedBitsStay, PostsAreOwed, WordsFollow};

use history::Machine;

/// A law: there is one history. The entries that any two seats have seen are legal, and one list is a prefix of the other.
pub fn histories_agree<M: Machine>()
    ensures { HistoriesAgree (Stepped M.stands M.steps) M.owes }
{}

/// A law: all notices have one order. The notices that any two seats have seen are in this order, so one list is a prefix
/// of the other. Each notice finds its server's word as earlier notices left it.
pub fn notices_agree<M: Machine>()
    ensures { NoticesAgree (Stepped M.stands M.steps) M.owes }
{}

/// A law: the pending words are those that all notices, in their order, leave.
pub fn words_follow<M: Machine>()
    ensures { WordsFollow (Stepped M.stands M.steps) M.owes }
{}

/// A law: a bit that a notice set stays pending until a later notice takes its server's word.
pub fn posted_bits_stay()
    ensures { PostedBitsStay }
{}

/// A law: at most one seat holds the turn.
pub fn one_seat_holds<M: Machine>()
    ensures { OneSeatHolds (Stepped M.stands M.steps) M.owes }
{}

/// A law: whenever no call is in its turn, the next try of any seat gets the turn, if its two steps follow each other. Word 0
/// is then twice the place of the next call, and only another seat that takes the turn first makes a try miss it.
pub fn free_turn_is_got<M: Machine>()
    ensures word { FreeWordIsPlace (Stepped M.stands M.steps) M.owes }
    ensures got { FreeTurnIsGot (Stepped M.stands M.steps) M.owes }
{}

/// A law: the raises of each server's bit are as many as its takes, plus one if the bit is pending.
pub fn notices_balance<M: Machine>()
    ensures { NoticesBalance (Stepped M.stands M.steps) M.owes }
{}

/// A law: each pending bit is owed by some entry of the history.
pub fn bits_are_owed<M: Machine>()
    ensures { BitsAreOwed (Stepped M.stands M.steps) M.owes }
{}

/// A law: each post belongs to a call of its pass. The call is in the history and owes exactly the post's bits.
pub fn posts_are_owed<M: Machine>()
    ensures { PostsAreOwed (Stepped M.stands M.steps) M.owes }
{}
