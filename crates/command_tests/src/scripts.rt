// Sessions: the texts of scripts, of actions and of the input.
mod play;
mod row;
mod sessions;
