//! The word of an account, and its fields.

use slot_word::AccountWord;
use std::process::Abort;

fn is_packed(rt: &impl Abort, account: AccountWord, word: u64) {
    assert_eq!(rt; account.pack(), word);
    assert_eq!(rt; AccountWord::unpack(word), account);
}

#[test]
fn the_fields_stand_in_their_places(rt: HostRuntime) {
    is_packed(&rt, AccountWord::free(9), 0x0000_0000_0000_0009);
    is_packed(&rt, AccountWord::taken(9), 0x8000_0000_0000_0009);
    is_packed(&rt, AccountWord::free(0), 0);
    is_packed(&rt, AccountWord::free(u32::MAX), 0xffff_ffff);
    is_packed(&rt, AccountWord::taken(u32::MAX), 0x8000_0000_ffff_ffff);
}
