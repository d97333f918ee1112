// What an edit makes of a part of a map, digit by digit.
#![tactic(auto)]
