// The verdict on a book: the laws that the record checker and the readers of an accepted book use, and worked examples.
#![tactic(auto)]
