//! Users by their server, by masks and by their numbers.
use crate::script::{
    ScriptRow, ScriptStage, ShownText, append, append_word, nick, script_holds, server, show_flag,
    show_users, user,
};
use irc_users::{Users, UsersFault};
use std::alloc::Global;
use std::process::Abort;

/// Users as in the scripts of rooms; `home` and `like` show those of a server, and those that a
/// mask matches.
const USERS: &str = "\
user [x one.net 10.0.0.1 Xavier =
user zed two.net cafe.org Z. E. D. =
user Alice one.net 10.0.0.2 Alice Liddell =
user {X two.net h another = taken
home one.net = Alice [x
home six.net =
like ZE? = zed
like 10.0.0.* = Alice [x
like *.NET = Alice zed [x
like *liddell = Alice
like nobody =";

/// `hold` notes the number of a user, `held` shows whether a user has it, and `at` who has it;
/// `nick` gives a user another nickname, and `gone` takes one out.
const NUMBERS: &str = "\
user al one.net 10.0.0.1 Al =
user bo one.net 10.0.0.2 Bo =
hold bo =
gone al =
user cy one.net 10.0.0.3 Cy =
nick bo aa =
held aa = yes
held cy = no
at = aa
gone AA =
at =
held cy = no";

/// Users, and the number that one of them had.
#[derive(Drop)]
struct UsersAndNumber {
    users: Users,
    number: Option<usize>,
}

fn show_fault(added: Result<(), UsersFault>, shown: &mut ShownText) {
    match added {
        Ok(()) => {}
        Err(UsersFault::Taken) => append(shown, b" taken"),
        Err(UsersFault::Memory) => append(shown, b" no memory"),
    }
}

/// Shows who has the number that was noted.
fn show_at(held: &UsersAndNumber, shown: &mut ShownText) {
    let Some(number) = held.number else {
        return;
    };
    match held.users.at(number) {
        Some(user) => append_word(shown, b"", user.nick.as_bytes()),
        None => {}
    }
}

/// The number of the user of a nickname.
fn number_of(rt: &impl Abort, users: &Users, word: &str) -> Option<usize> {
    users.number(&nick(rt, word))
}

fn show_home(rt: &impl Abort, users: &Users, word: &str, shown: &mut ShownText) {
    show_users(&users.by_home(&server(rt, word)), shown);
}

fn rename(rt: &impl Abort, users: &mut Users, row: ScriptRow<'_>) {
    let _ = users.rename(&nick(rt, row.first), &nick(rt, row.second));
}

fn remove(rt: &impl Abort, users: &mut Users, word: &str) {
    let _ = users.remove(&nick(rt, word));
}

fn add(rt: &impl Abort, users: &mut Users, row: ScriptRow<'_>, shown: &mut ShownText) {
    show_fault(users.add(user(rt, row)), shown);
}

/// Does what a row of users alone says.
fn perform_on(rt: &impl Abort, users: &mut Users, row: ScriptRow<'_>, shown: &mut ShownText) {
    match row.verb {
        "user" => add(rt, users, row, shown),
        "home" => show_home(rt, users, row.first, shown),
        "like" => show_users(&users.matching(row.first.as_bytes()), shown),
        "nick" => rename(rt, users, row),
        _ => remove(rt, users, row.first),
    }
}

impl ScriptStage for UsersAndNumber {
    fn perform(
        &mut self,
        rt: &impl Abort,
        _alloc: Global,
        row: ScriptRow<'_>,
        shown: &mut ShownText,
    ) {
        match row.verb {
            "hold" => self.number = number_of(rt, &self.users, row.first),
            "held" => show_flag(number_of(rt, &self.users, row.first) == self.number, shown),
            "at" => show_at(self, shown),
            _ => perform_on(rt, &mut self.users, row, shown),
        }
    }
}

/// Whether a script holds where there is no user.
fn users_hold(rt: &impl Abort, alloc: Global, script: &str) -> bool {
    let mut held = UsersAndNumber {
        users: Users::new(alloc),
        number: None,
    };
    script_holds(rt, alloc, &mut held, script)
}

#[test]
fn users_are_found_by_server_mask_and_number(rt: HostRuntime) {
    assert!(rt; users_hold(&rt, rt.alloc(), USERS));
    assert!(rt; users_hold(&rt, rt.alloc(), NUMBERS));
}
