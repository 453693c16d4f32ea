// Document 01's calls on a sheet, as definitions, and what is proved of them: on inputs without the fields of requests 2.1 and 2.2 the calls of
// `rows` answer what these do, number, length and every byte of the store.
#![tactic(auto)]
