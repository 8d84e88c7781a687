/// Why a line has no reading, by the number of the reason, and what to do.
pub(crate) fn misreading(reason: u8) -> &'static str {
    match reason {
        1 => "it isn't UTF-8; save the file as UTF-8",
        2 =>
            "its first word is none that this command reads; words are in lower case, and no byte order mark comes before them",
        3 => "it ends too early; docs/SCHEDULES.md has the parts of each line, as `stop 1 0 -`",
        4 =>
            "it goes on where it must end, or where `;` or `?` must follow; a comment has a line of its own",
        5 =>
            "a number, an identifier or a value is misspelled or out of range; identifiers are 1 to 32, with blanks between them, and texts stand between double quotes",
        6 =>
            "a text is misspelled; it stands between double quotes, a key of 1 to 64 bytes, a value of up to 1024; and a `stop`, a `fstop` or a `recover` with a call ends with `-` or pairs of hexadecimal digits",
        7 =>
            "there is no such command or query; commands are put, del, inc, cas, move and need; queries, which stand after `?` in a request, are get, keys and count",
        8 =>
            "an identifier isn't above the one before it, or there are more than 16 commands; name each replica once, in ascending order",
        9 =>
            "it comes at the wrong place; a schedule's `start` is its first event and comes once, `end` is the last line",
        _ => "it has no reading",
    }
}
